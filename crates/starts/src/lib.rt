// Where each cursor's search among record 0's children may begin.
#![tactic(auto)]

pub mod starts;
