// What all roots' reference lists hold together, and whose the names at the cursor are, as theorems. There is no code here.
#![tactic(auto)]
