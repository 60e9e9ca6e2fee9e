// Bits of a number, proved; no code.
#![tactic(auto)]
