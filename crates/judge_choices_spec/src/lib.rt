// What it means that a clause carries the verdict of a state at a place: definitions, with worked rules.

#![tactic(auto)]
