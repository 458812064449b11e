// What the rules of the path's nodes give.
#![tactic(auto)]

pub mod rules;
