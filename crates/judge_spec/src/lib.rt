// What the judge on a rule promises: what it refuses, answers and writes, and the laws that this is what plans say; no code.

#![tactic(auto)]
