// The scope at the cursor: the lists of its root, and the WITH names that it sees of the roots around it.
#![tactic(auto)]

pub mod offers;
pub mod with_names;
