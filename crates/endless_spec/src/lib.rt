// Endless sequences of letters, repeating or not: what is claimed of every table that the builds leave, and why its runs tell whether the rule accepts.

#![tactic(auto)]
