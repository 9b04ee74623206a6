// The closure: finds the reachable macrostates of a rule in the lent slice, by rounds over the cores until none adds a key. It is full only
// where there are more of them than room.

#![tactic(auto)]

pub mod reach;
pub mod rounds;
