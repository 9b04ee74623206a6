// Sets of numbers as tests, masks and ascending lists, since definitions speak of tests, and code of masks and lists: definitions and laws,
// no code.

#![tactic(auto)]
