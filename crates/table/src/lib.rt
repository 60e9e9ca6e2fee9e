// What is said of a reader of a table: it answers an outline of what was read, or refusal 1 to 10. The definitions are in specs.
#![tactic(auto)]
