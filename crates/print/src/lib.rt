// What glance prints, line by line.
#![tactic(auto)]

pub mod printed;
