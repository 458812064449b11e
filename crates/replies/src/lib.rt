// What C gets as the reply to a question.
#![tactic(auto)]

pub mod reply;
