// What a rule file is, and which row refuses what is none: definitions and laws of its parts and of the rows that try them.

#![tactic(auto)]

use rule_entries::Head;

// Where a file's parts stand: its numbers, the place of its first clause, and how many clauses it has.
#[derive(Clone, Copy)]
pub struct Parts {
    pub head: Head,
    pub at: usize,
    pub clauses: usize,
}

// Where the rule of an accepted file stands: its parts, and how many bytes of names end two bytes before its first clause.
#[derive(Clone, Copy)]
pub struct Layout {
    pub head: Head,
    pub at: usize,
    pub clauses: usize,
    pub names: usize,
}
