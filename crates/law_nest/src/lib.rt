// Laws of one step of a nest stand in proofs/: this crate has no code.
#![tactic(auto)]
