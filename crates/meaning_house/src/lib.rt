// 02 (a): house order for tables: the definitions and the statements; no code.
#![tactic(auto)]
