// Alternating weak Büchi automata and the preorder construction: the definitions in which every promise is stated, and what they give for
// the examples; no code.

#![tactic(auto)]
