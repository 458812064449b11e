// The WITH names of a root, as a query inside it sees them.
#![tactic(auto)]

pub mod seen;
