// What the path to an offset gathers, and which rule speaks of a node of it.
#![tactic(auto)]

pub mod gathered;
pub mod plain;
pub mod rules;
