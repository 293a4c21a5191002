// Rules that look beyond one field or serve more than one block (document 01, "Masks", "Tiling", "States"), the four angles, and
// how a list of rules is judged. Each is decided on the bits, by the ranges of its number; a block's other rules stand beside it.
#![tactic(auto)]

pub mod angles;
pub mod check;
pub mod masks;
pub mod ranges;
pub mod states;
pub mod tiling;
