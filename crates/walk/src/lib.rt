// The walk through a volume, block by block: one automaton, which the reader and the writer share.
#![tactic(auto)]

pub mod after;
pub mod due;
pub mod hope;
