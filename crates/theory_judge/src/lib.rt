// 02 (m): a sheet describes a tree; no code.
#![tactic(auto)]
