// What the closure does at one core, and at the cores of one set: adds the macrostates where a run may begin, and those that listed ones go
// to. Letters and sets that bring nothing new are skipped.

#![tactic(auto)]

pub mod initial;
pub mod letters;
pub mod spans;
