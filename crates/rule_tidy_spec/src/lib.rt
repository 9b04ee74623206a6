// What tidying makes of a rule: definitions and laws of clauses inside one another, and that the same sets satisfy the tidied entries.

#![tactic(auto)]
