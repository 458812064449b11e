// Valid UTF-8 and the places between its characters: definitions and their laws, which stand in specs/ and proofs/.
#![tactic(auto)]
