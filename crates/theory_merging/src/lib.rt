// Two rankings merged are the ranking of both; no code.
#![tactic(auto)]
