// Runs over a cycle as endless walks through the product of a table and the cycle: definitions and laws. Number m at place p is the node
// p * n + m, n being the number of codes.

#![tactic(auto)]
