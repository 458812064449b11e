// The check of a tree table. No crate but those that step over records knows how wide one is.
#![tactic(auto)]

pub mod check;
