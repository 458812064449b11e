// The records above a record.
#![tactic(auto)]

pub mod above;
