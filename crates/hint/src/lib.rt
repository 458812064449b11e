// The opener that a message speaks of.
#![tactic(auto)]

pub mod hint;
