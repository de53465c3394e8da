// What walks by hand share: laws for the proofs of functions that the borrow checker does not cover.
#![tactic(auto)]
