// The walk down the path to an offset.
#![tactic(auto)]

pub mod descent;
