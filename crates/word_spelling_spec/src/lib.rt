// Words as endless sequences of letters, by which spellings are the same or not, and their tidy spellings: definitions and laws, no code.

#![tactic(auto)]
