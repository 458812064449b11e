// The Rust as a second reading of document 01: transcriptions and theorems, which stand in specs/ and proofs/.
#![tactic(auto)]
