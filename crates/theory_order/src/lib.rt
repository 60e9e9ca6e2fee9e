// House order for tables, proved over the definitions of `meaning`; no code.
#![tactic(auto)]
