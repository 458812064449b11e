// Everything at a cursor in one call.
#![tactic(auto)]

pub mod everything;
