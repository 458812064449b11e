// The conditions of one record's refusals, and what is carried on from one record to the next.
#![tactic(auto)]

pub mod step;
