// A frame's lines to a source, an offset and a table.
#![tactic(auto)]

pub mod input;
