// What entries say together, as theorems and without code: the build and both judges, the spellings of a word, the live calls on a trimmed
// table, a built table through its text and back, and verdicts that a preface does not change.

#![tactic(auto)]
