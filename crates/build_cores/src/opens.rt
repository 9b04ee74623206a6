// The table of open states of a rule: over each letter, which states are open in the set before a set. It is made once, so that a step back
// looks states up and tries no clause.
ghost use Rattle.std.specs.Prelude.{◌≡◌, ◌*◌, ◌^◌, ◌<◌};
ghost use Rattle.sets.specs.Tests.{one};
ghost use Rattle.theory.specs.Passing.{WellFormed};
ghost use Rattle.theory.specs.Automaton.{automaton};
ghost use Rattle.rule_entries.specs.Entries.{rule_of};
ghost use Rattle.rule_entries.specs.Starts.{EntryStarts};
ghost use Rattle.build_cores.specs.Opens.{open_before_lem, Opens};

use rule_entries::{Head, satisfied, starts_of};

// The mask of state q, or the empty mask.
fn marked(yes: bool, q: usize) -> u8
    requires { q < 8 }
    ensures { result ≡ one yes * 2 ^ q }
{
    if yes {
        return 1u8 << q;
    }
    0
}

// The open states of the set before the set with these open states, over a letter.
pub fn open_before(
    h: Head,
    counts: &[u8],
    starts: &[u16; 128],
    clauses: &[u8],
    letter: usize,
    opened: u8,
) -> u8
    requires { WellFormed (rule_of h counts.now clauses.now) × EntryStarts counts.now starts.now × (letter < h.s) }
    ensures { result ≡ open_before_lem (automaton (rule_of h counts.now clauses.now)) letter opened }
{
    let accepting = h.accepting as u8;
    let set = opened ^ accepting;
    let mut found: u8 = 0;
    for q in 0..h.n {
        found += marked(satisfied(h, counts, starts, clauses, q, letter, set), q);
    }
    found ^ accepting
}

// The table of open states: place letter × 256 + opened has the open states of the set before the set with the open states `opened`, over
// that letter.
pub fn open_table(h: Head, counts: &[u8], clauses: &[u8]) -> [u8; 4096]
    requires { WellFormed (rule_of h counts.now clauses.now) }
    ensures { Opens (automaton (rule_of h counts.now clauses.now)) h.s result }
{
    let starts = starts_of(counts);
    let mut opens = [0u8; 4096];
    for i in 0..h.s * 256 {
        opens[i] = open_before(h, counts, &starts, clauses, i / 256, (i % 256) as u8);
    }
    opens
}
