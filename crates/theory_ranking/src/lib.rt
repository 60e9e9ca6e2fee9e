// The order of ranked suggestions: what is sorted and has each entry once is one list; no code.
#![tactic(auto)]
