// The table reading: references and aliases of FROM and JOIN.
#![tactic(auto)]

pub mod tables;
pub mod waiting;
