// Laws under the comparison of two rules: runs and the components that their cores spare, pairs of numbers and of cores, tags, searches and
// ways, and what the words that two tables share say of the rules.

#![tactic(auto)]
