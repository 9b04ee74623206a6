// The text of a table in the Hanoi Omega-Automata format, version 1, and its reading: what is written, refused, answered and stored.
// Definitions, and the type of what the reader answers.

#![tactic(auto)]

// How many macrostates and transitions the table has.
#[derive(Clone, Copy)]
pub struct TableSizes {
    pub macrostates: usize,
    pub transitions: usize,
}
