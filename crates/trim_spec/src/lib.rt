// What the trimmed build promises: which macrostates of a built table matter, and the table of these alone. Definitions, and the tables of
// worked rules.

#![tactic(auto)]
