// The contexts, their numbers, and the trailing rule.
#![tactic(auto)]

pub mod context;
pub mod trailing;
