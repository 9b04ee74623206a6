// Laws of the text of a table: how long its lines are, which transitions stand behind a state line, what a text carries, that it carries it
// once, and what is read of it part by part.

#![tactic(auto)]
