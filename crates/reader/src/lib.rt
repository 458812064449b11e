// A frame's lines read: the source, the offset and the table.
#![tactic(auto)]

pub mod read;
