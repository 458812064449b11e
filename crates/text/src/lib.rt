// The text of a token, and when it is a word.
#![tactic(auto)]

pub mod text;
