// Whether the buffers of the one call have room.
#![tactic(auto)]

pub mod rooms;
