// Laws of sheets of words: where words begin, each judged alone, cycles counted once, masks shared; no code.

#![tactic(auto)]
