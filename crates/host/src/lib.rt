// The engine for programs in C and Rust: a slice is a pointer and a length, a lent number or array a pointer. Each call brings the numbers to
// the engine's call, and its answer back as numbers, which the crates `host_numbers` and `host_answers` tell.
#![tactic(auto)]

pub mod in_place;
pub mod inner_runs;
pub mod may_numbers;
pub mod previews;
pub mod ranking;
pub mod runs;
pub mod sheets;
pub mod tables;
pub mod windows;
