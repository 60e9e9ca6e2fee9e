// The numbers of the operations in the program's words (docs/PROGRAM.md), each in this one place.
#![tactic(auto)]

pub const ADD: usize = 0;

pub const EVALUATE: usize = 1;

pub const READ: usize = 2;

pub const PREDICT: usize = 3;

pub const TEST: usize = 4;

pub const REMOVE: usize = 5;

// Nothing is left.
pub const NOTHING: usize = 6;
