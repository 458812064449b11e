// The statement that encloses an offset.
#![tactic(auto)]

pub mod statement;
