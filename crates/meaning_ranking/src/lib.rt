// The definitions and statements of ranked suggestions; no code.
#![tactic(auto)]
