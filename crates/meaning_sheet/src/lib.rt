// 02 (i): tree sheets: the definitions; no code.
#![tactic(auto)]
