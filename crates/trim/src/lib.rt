// Trimming a table in place: which macrostates matter, told by marks in their codes, and new numbers for those that are left.

#![tactic(auto)]

pub mod marks;
pub mod number;
