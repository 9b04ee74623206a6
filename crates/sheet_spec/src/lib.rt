// What the judge of a sheet promises: what is refused, answered and written; no code but the type of what is answered.

#![tactic(auto)]

// How many words a sheet has, and how many cycles were filled.
#[derive(Clone, Copy)]
pub struct Totals {
    pub words: usize,
    pub cycles: usize,
}
