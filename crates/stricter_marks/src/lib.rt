// Which pairs of numbers of two tagged tables are in: marks for the pairs of their cores, rounds over these, and marks for all pairs of
// numbers.

#![tactic(auto)]

pub mod pairs;
pub mod spread;
