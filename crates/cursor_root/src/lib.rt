// The root whose names are offered at the cursor.
#![tactic(auto)]

pub mod root;
