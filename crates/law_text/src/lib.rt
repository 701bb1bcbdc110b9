// Laws about the definitions stand in proofs/: this crate has no code.
#![tactic(auto)]
