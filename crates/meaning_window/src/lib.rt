// 02 (k): a window over the last values: the definitions and the statements; no code.
#![tactic(auto)]
