// What following a log without end promises: the set alone is kept, any number of letters takes it on, and calls may be cut anywhere; no
// code but the types of the answer.

#![tactic(auto)]

// How many macrostates are left, and after how many letters none was left for the first time, or how many letters there were.
#[derive(Clone, Copy)]
pub struct FollowCounts {
    pub left: usize,
    pub letters: usize,
}
