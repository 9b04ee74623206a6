// What the translation of a log promises: which line of an event table holds an event, the rows that refuse, and the letters of a log.
// Definitions, with worked tables and logs.

#![tactic(auto)]
