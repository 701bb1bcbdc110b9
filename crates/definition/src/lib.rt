// The definitions stand in specs/, and the worked table in proofs/: this crate has no code.
#![tactic(auto)]
