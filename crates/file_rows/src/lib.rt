// Rows 1 to 10 of a rule file: those of its trailer, and those of a rule's numbers and lists, which the writer tries as well.

#![tactic(auto)]

pub mod rule;
pub mod trailer;
