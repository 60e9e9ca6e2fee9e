// The cases that document 01 marks with a star, proved; no code.
#![tactic(auto)]
