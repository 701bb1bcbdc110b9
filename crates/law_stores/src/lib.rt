// Laws of stores into a buffer stand in proofs/: this crate has no code.
#![tactic(auto)]
