// The answers of the calls without a run, as numbers for C: the house order, a ranking, a sheet that is judged, a window.
#![tactic(auto)]

pub mod housed;
pub mod judged;
pub mod ranked;
pub mod windows;
