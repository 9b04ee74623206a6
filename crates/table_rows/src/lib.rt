// Row 15: a lent table may hold any numbers, so its codes and transitions are tried before it is judged, written as text or followed live.

#![tactic(auto)]

pub mod checks;
pub mod rows;
