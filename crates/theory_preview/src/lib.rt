// 02 (g): a preview is the feed on a copy, and the set is of the tokens whose preview is no refusal; no code.
#![tactic(auto)]
