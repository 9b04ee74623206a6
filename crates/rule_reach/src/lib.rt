// What the states of a rule lead to, in one step and in any number: components, and the order in which they are judged, come from it.

#![tactic(auto)]

ghost use Rattle.std.specs.Prelude.{◌≡◌, ◌<◌};
ghost use Rattle.sets.specs.Masks.{mask};
ghost use Rattle.theory.specs.Passing.{WellFormed};
ghost use Rattle.theory.specs.Components.{leads};
ghost use Rattle.rule_entries.specs.Entries.{rule_of};
ghost use Rattle.rule_reach.specs.Tables.{successors_of, closures_of, LeastClosed};

use rule_entries::Head;

// The mask of the states that q leads to in one step, at any letter.
pub fn successors(h: Head, counts: &[u8], clauses: &[u8], q: usize) -> u8
    requires { WellFormed (rule_of h counts.now clauses.now) × (q < h.n) }
    ensures { result ≡ mask h.n (leads (rule_of h counts.now clauses.now) q) }
{
    let mut found: u8 = 0;
    for a in 0..h.s {
        found |= rule_entries::named_in(rule_entries::entry_of(h, counts, clauses, q, a));
    }
    found
}

// For each state, the mask of the states that it leads to in one step.
pub fn successor_table(h: Head, counts: &[u8], clauses: &[u8]) -> [u8; 8]
    requires { WellFormed (rule_of h counts.now clauses.now) }
    ensures { result ≡ successors_of (rule_of h counts.now clauses.now) }
{
    let mut table = [0u8; 8];
    for q in 0..h.n {
        table[q] = successors(h, counts, clauses, q);
    }
    table
}

// The states that q leads to over some number of steps, zero included: rounds until nothing is new.
pub fn closure(es: &[u8; 8], q: usize) -> u8
    requires { q < 8 }
    ensures { LeastClosed es.now q result }
{
    let mut found: u8 = 1 << q;
    loop {
        let next = found | set_masks::union_over(found, es);
        if next == found {
            return found;
        }
        found = next;
    }
}

// For each state, the mask of the states that it leads to over some number of steps, zero included.
pub fn closures(h: Head, counts: &[u8], clauses: &[u8]) -> [u8; 8]
    requires { WellFormed (rule_of h counts.now clauses.now) }
    ensures { result ≡ closures_of (rule_of h counts.now clauses.now) }
{
    let es = successor_table(h, counts, clauses);
    let mut table = [0u8; 8];
    for q in 0..h.n {
        table[q] = closure(&es, q);
    }
    table
}
