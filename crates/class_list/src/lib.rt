// The list of the classed tokens of a table.
#![tactic(auto)]

pub mod class_list;
