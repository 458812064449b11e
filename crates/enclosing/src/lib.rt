// The roots that enclose a root, and the WITH names that it sees of them.
#![tactic(auto)]

pub mod enclosing;
