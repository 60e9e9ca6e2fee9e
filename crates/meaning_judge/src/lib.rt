// 02 (m): sheets from other tools: the definitions; no code.
#![tactic(auto)]
