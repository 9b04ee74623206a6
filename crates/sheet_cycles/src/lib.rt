// The cycles of a sheet: which are known, the masks of each, filled once, and from them the mask bytes of a word.

#![tactic(auto)]

pub mod learning;
pub mod masks;
