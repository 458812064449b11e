// The clauses that each list is read from, and whether a stretch has one.
#![tactic(auto)]

pub mod clauses;
