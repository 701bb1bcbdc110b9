// Laws of a call's loop, which the demands and the calls on tables share, stand in proofs/: this crate has no code.
#![tactic(auto)]
