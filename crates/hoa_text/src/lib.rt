// The text of a table that is lent in bytes: its lines, the whole text written into a slice, and how long it is.

#![tactic(auto)]

pub mod lengths;
pub mod lines;
pub mod table;
pub mod writer;
