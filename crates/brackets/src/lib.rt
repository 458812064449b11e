// Bracket matching: the stack, the openers left, the hint.
#![tactic(auto)]

pub mod bracket_matching;
