// The reference of a table name, and its entry.
#![tactic(auto)]

pub mod pending;
pub mod references;
