// Sameness of rules, however their clauses are spelled: their entries and their names, then their files.

#![tactic(auto)]

pub mod entries;
pub mod files;
