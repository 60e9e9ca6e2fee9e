// The statements of the demands and of the change requests; no code.
#![tactic(auto)]
