// The walk over tokens: the last token at an offset, the index of a function's argument.
#![tactic(auto)]

pub mod function;
pub mod last_token;
pub mod sweep;
