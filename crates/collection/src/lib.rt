// The collection: what a node gives to each list, and then what its children give.
#![tactic(auto)]

pub mod collection;
