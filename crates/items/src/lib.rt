// The items of a WITH clause that an inner query sees.
#![tactic(auto)]

pub mod items;
