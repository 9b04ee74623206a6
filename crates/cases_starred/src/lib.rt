// The starred cases of 01 as theorems, so that a reader sees the definitions give what 01 says: definitions and proofs, no code.

#![tactic(auto)]
