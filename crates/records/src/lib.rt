// The records of a tree table: their kinds, their numbers, and the ranges that they span.
#![tactic(auto)]

pub mod kinds;
pub mod range;
pub mod record;
