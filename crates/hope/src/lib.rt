// What hope is (document 02, #110), and that reading asks for it and for nothing else: see specs/. This crate has no code.
#![tactic(auto)]
