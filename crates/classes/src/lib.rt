// The class of a token.
#![tactic(auto)]

pub mod token_class;
