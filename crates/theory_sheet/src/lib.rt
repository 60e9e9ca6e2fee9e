// 02 (i): the run of a whole segment move by move, and the records of the tree that it walks; no code.
#![tactic(auto)]
