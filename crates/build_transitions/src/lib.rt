// The transitions between the listed macrostates: the second list of the build. A step back from each core over each letter finds their
// sources, and chains through the codes give the numbers.

#![tactic(auto)]

pub mod cores;
pub mod sources;
pub mod transitions;
