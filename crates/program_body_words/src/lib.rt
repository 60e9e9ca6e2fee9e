// No code: the words of a production's body, and what its places wait at.
#![tactic(auto)]
