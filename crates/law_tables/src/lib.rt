// Laws of advances on tables stand in proofs/: this crate has no code.
#![tactic(auto)]
