// A name with and without its quotes.
#![tactic(auto)]

pub mod quotes;
