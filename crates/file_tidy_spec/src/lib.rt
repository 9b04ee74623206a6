// What the tidy tool promises: definitions of the file that it leaves, and the laws that this is accepted and is the same rule.

#![tactic(auto)]
