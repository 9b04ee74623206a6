// What each served call writes into state, which keeps letters, marks and set: so a call needs nothing else but the rule and the table.

#![tactic(auto)]

pub mod effects;
pub mod set_part;
