// The step on the tables of a call, which contracts cite, stands in specs/: this crate has no code.
#![tactic(auto)]
