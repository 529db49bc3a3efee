//! Lemmas on how many entries of a map pass a test, for the proofs of other crates. There is no code here.
#![tactic(auto)]
