// The demands, stated in one place over the definitions of the other crates: see specs/. This crate has no code.
#![tactic(auto)]
