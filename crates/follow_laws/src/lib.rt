// What following a log without end leaves: the set worked out afresh over all letters since the start, wherever the calls were cut, and empty
// exactly if no continuation is accepted; no code, laws only.

#![tactic(auto)]
