// The truth masks of a word: from which states the rule accepts at each place. Every judge on a rule reads its answer off them.

#![tactic(auto)]

pub mod layer;
pub mod word;
