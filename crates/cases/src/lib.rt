// The cases that document 01 marks P, computed. There is no code here.
#![tactic(auto)]
