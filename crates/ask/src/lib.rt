// Questions on a volume: a radial, a moment, a gate, a row, a tally; and where a moment stands. Each is answered on whole radials,
// whatever the verdict.
#![tactic(auto)]

pub mod answers;
pub mod places;
pub mod tallies;
