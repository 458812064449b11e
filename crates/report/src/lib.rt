// The answers to a frame as text.
#![tactic(auto)]

pub mod output;
