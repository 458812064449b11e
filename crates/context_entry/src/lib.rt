// The context at a cursor as C gets it: an entry.
#![tactic(auto)]

pub mod context_entry;
