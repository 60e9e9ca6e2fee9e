// 02 (h): the inner run is a run alone, and the outer run is kept; no code.
#![tactic(auto)]
