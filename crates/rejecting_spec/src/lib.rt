// The automaton of the words that a rule rejects: what its lists hold, and demand 3 turned round.

#![tactic(auto)]
