// The contexts at all cursors of a shared page.
#![tactic(auto)]

pub mod cursors;
