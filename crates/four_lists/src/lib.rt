// The four lists of a root at once.
#![tactic(auto)]

pub mod four_lists;
