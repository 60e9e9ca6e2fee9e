// 02 (h): inner runs: the definitions; no code.
#![tactic(auto)]
