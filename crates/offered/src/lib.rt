// The WITH names that are offered at a root.
#![tactic(auto)]

pub mod offered;
