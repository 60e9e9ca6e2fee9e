// No code: the sections of the program, and what is known of the outline of an accepted table.
#![tactic(auto)]
