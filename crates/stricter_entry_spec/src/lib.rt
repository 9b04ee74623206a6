// What the comparison of two rules answers and leaves, with worked rows.

#![tactic(auto)]

use build::Counts;

// The counts of both tables: that of A, and that of the words that B rejects.
#[derive(Clone, Copy)]
pub struct BothCounts {
    pub a: Counts,
    pub b: Counts,
}

// The answer: yes, or no with the lengths of the lead-in and the cycle of a word that A accepts and B rejects.
#[derive(Clone, Copy)]
pub enum Comparison {
    Yes(BothCounts),
    No(BothCounts, usize, usize),
}
