// The tree that a table stands for: subtrees as stretches of records, and the steps from child to child.
#![tactic(auto)]

pub mod nodes;
pub mod part;
pub mod stretch;
