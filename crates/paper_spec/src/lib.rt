// The step back in the words of source 000, so that a reader can set it beside 01's: its Definition 7 (R1' and R2'), and 01's step on
// rejecting and on accepting components alone.

#![tactic(auto)]
