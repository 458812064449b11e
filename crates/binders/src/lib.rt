// What WITH items and column aliases bind.
#![tactic(auto)]

pub mod binders;
