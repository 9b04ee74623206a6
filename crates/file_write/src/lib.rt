// The writer: from a rule's numbers to the bytes of its file. It refuses what the reader would, so what it writes reads back as that rule.

#![tactic(auto)]

pub mod layout;
pub mod writer;
