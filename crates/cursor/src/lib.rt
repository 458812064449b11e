// The context at the cursor: the rules in their order, and the last rule.
#![tactic(auto)]

pub mod cursor_context;
