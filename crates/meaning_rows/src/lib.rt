// More computed rows of the definitions and statements; no code.
#![tactic(auto)]
