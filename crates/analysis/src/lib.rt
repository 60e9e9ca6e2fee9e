// The image of a table's productions (outline `Images`), what is to be found of them, and what all of it starts from: the nonterminals that derive
// nothing or some token string, and the lowest that is useless.
#![tactic(auto)]

pub mod closing;
pub mod judging;
