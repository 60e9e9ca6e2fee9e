// 02 (g): what may be typed now; definitions, statements and rows, no code.
#![tactic(auto)]
