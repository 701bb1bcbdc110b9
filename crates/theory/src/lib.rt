// The proofs of the demands stand in proofs/: this crate has no code.
#![tactic(auto)]
