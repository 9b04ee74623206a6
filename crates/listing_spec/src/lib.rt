// What the listing program prints for each file: definitions, and the laws that it shows what the build leaves and always has room.

#![tactic(auto)]
