// Definition 7 of source 000 and 01's step are the same step, and the steps of both kinds of components together are it: the laws, no code.

#![tactic(auto)]
