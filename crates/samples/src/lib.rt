// The bench samples that are proved: one table of theorems, in specs/Samples.antt.
#![tactic(auto)]
