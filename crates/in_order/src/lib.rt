// The fast check: is every record in order?
#![tactic(auto)]

pub mod in_order;
