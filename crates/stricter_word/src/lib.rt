// A word that two tables accept, found in the pairs of their numbers: the transitions of a number, a search from one pair, and the ways
// that make the word.

#![tactic(auto)]

pub mod explore;
pub mod lasso;
pub mod rows;
