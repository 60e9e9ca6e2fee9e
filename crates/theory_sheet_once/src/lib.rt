// 02 (i): whatever is brought, there is only one effect; no code.
#![tactic(auto)]
