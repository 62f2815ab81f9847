// The three demands as theorems: there is no code here. Each theorem cites definitions and contracts, never a function's text.
#![tactic(auto)]
