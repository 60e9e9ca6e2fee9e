// 02 (b): a candidate is one run from the opening, whatever stood on the stacks before; no code.
#![tactic(auto)]
