// Endless walks in a graph with marked nodes: the laws of pruning and of nested fixed points that trimming, the judge on a table and the
// comparison of rules stand on; no code.

#![tactic(auto)]
