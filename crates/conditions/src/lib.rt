// The conditions of the refusals; those of the table and the lengths as a whole as tests.
#![tactic(auto)]

pub mod whole;
