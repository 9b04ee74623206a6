// What the report of a mixed loop shows: the least of the shortest loops through an accepting and a rejecting state. Definitions, and the
// laws that a search over lengths up to n finds it.

#![tactic(auto)]

// Masks of the states from which walks of one length lead to a state: any walk, and walks that pass a state of the other kind.
#[derive(Clone, Copy)]
pub struct Ways {
    pub any: u8,
    pub mixed: u8,
}
