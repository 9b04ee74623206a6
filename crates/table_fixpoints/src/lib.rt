// The fixed points by which the judge on a table finds where an accepting run goes on, over one byte a node: marks of a place, rounds over
// the cycle, pruning and solving.

#![tactic(auto)]

pub mod fixpoints;
pub mod marks;
pub mod rounds;
