// Classes and scope: token classes, and the four lists of a root.
#![tactic(auto)]

pub mod scope;
pub mod semantic_tokens;
