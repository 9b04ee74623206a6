// How each line of a listing is written: definitions, with worked lines, and laws of lines one after the other.

#![tactic(auto)]
