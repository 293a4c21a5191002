// A radial put block by block is what the questions answer of what is written: definitions and proofs alone.
#![tactic(auto)]
