// The last token, dotted, a function's name and its argument's index: what each is, and what a token's text says.
#![tactic(auto)]

pub mod last_token;
pub mod sought;
