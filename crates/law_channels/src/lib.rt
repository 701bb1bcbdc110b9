// Laws of channels, which the demands, the flat machine and the code of a channel call share, stand in proofs/: this crate has no code.
#![tactic(auto)]
