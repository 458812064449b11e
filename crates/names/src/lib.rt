// Name tokens and bindings: what a WITH item or an alias binds.
#![tactic(auto)]

pub mod bindings;
pub mod names;
