// Under the build: chains through a list of keys, macrostates as keys (core * 256 + K + 16 k, the core being bits 0 to 39 of the code), and
// the transitions between listed codes. Definitions and laws.

#![tactic(auto)]

// The number of members after an addition, and whether it found no room.
#[derive(Clone, Copy)]
pub struct Grow {
    pub m: usize,
    pub full: bool,
}

// The numbers of a rule that the closure needs beside its tables. A run begins where the set holds the initial state,
// or, if `holds` is false, where it lacks it.
#[derive(Clone, Copy)]
pub struct Shape {
    pub s: usize,
    pub components: usize,
    pub accepting: u8,
    pub initial: usize,
    pub holds: bool,
}
