// Alternating weak Büchi automata and the preorder construction: the theorems, no code. Demand 3, the words that a rule rejects, and which
// macrostates matter.

#![tactic(auto)]
