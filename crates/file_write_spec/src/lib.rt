// What the writer promises: definitions of the file that it leaves, and the laws by which this reads back as the rule that was given.

#![tactic(auto)]
