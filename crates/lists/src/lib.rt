// One list of a root.
#![tactic(auto)]

pub mod lists;
