// The word list of `KEYWORDS` and its test.
#![tactic(auto)]

pub mod keywords;
