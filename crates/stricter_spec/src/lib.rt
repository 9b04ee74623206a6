// When a rule is stricter than another, words that two tables accept together, and pairs of cores in place of pairs of macrostates:
// definitions, with worked words and tables.

#![tactic(auto)]

// The answer of the search: nothing, or a word, by the lengths of its lead-in and its cycle.
#[derive(Clone, Copy)]
pub enum Found {
    Nothing,
    Word(usize, usize),
}
