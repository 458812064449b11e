// A function's name.
#![tactic(auto)]

pub mod function_name;
