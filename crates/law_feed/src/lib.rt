// Laws of feeds, which the demands and the code share, stand in proofs/: this crate has no code.
#![tactic(auto)]
