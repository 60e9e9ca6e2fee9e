// No code: the words of a production's rules and conditions, and the chains of their fields.
#![tactic(auto)]
