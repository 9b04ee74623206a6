// What following a log live promises: the letters and marks that a history leaves, the set worked out afresh, the bytes of state, and what
// each call refuses, answers and leaves; no code but the types of a call and of what it counts.

#![tactic(auto)]

// The five calls, with a letter or the number of a mark.
#[derive(Clone, Copy)]
pub enum LiveCall {
    Start,
    Arrive(u32),
    Withdraw,
    Mark(u32),
    Return(u32),
}

// How many letters are held, and how many macrostates are in the set.
#[derive(Clone, Copy)]
pub struct LiveCounts {
    pub letters: usize,
    pub macrostates: usize,
}
