// The laws of the step on tables stand in proofs/: this crate has no code.
#![tactic(auto)]
