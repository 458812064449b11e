// What a token or a node makes of a reading.
#![tactic(auto)]

pub mod turns;
