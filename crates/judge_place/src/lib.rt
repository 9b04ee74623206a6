// What one step knows of a state at a place of a word: whether its entry is satisfied by the masks of the place that follows. The rounds of
// the judge are made of such steps.

#![tactic(auto)]

ghost use Rattle.std.specs.Prelude.{◌≡◌, not, ◌^◌, ◌≤◌, ◌<◌, eqb, length, get_or, set};
ghost use Rattle.std.specs.Int.Count.{ones};
ghost use Rattle.sets.specs.Masks.{bit, mask};
ghost use Rattle.theory.specs.Rule.{entry, satisfies};
ghost use Rattle.theory.specs.Passing.{WellFormed};
ghost use Rattle.rule_entries.specs.Entries.{rule_of};
ghost use Rattle.rule_entries.specs.Starts.{EntryStarts};
ghost use Rattle.judge_place.specs.Starts.{CycleReady, met_by_lem};
ghost use Rattle.judge_place.specs.Rounds.{opened};

use rule_entries::{Head, satisfied};
use set_masks::difference;

// The states among the given whose entry at letter a the set satisfies.
pub fn met_by(
    h: Head,
    counts: &[u8],
    starts: &[u16; 128],
    clauses: &[u8],
    a: usize,
    set: u8,
    states: u8,
) -> u8
    requires { WellFormed (rule_of h counts.now clauses.now) × EntryStarts counts.now starts.now × (a < h.s) × (states < 2 ^ h.n) }
    ensures { result ≡ met_by_lem (rule_of h counts.now clauses.now) a set states }
{
    let mut met: u8 = 0;
    let mut left = states;
    // A while: it visits the set bits alone.
    while left != 0 {
        let q = u8::trailing_zeros(left) as usize;
        if satisfied(h, counts, starts, clauses, q, a, set) {
            met |= 1 << q;
        }
        left &= left - 1;
    }
    met
}

// The states below n whose table entry has as many states as the height says.
pub fn at_height(reach: &[u8; 8], n: usize, height: u32) -> u8
    requires { n ≤ 8 }
    ensures { result ≡ mask n (λ q. eqb (ones (get_or reach.now q 0)) height) }
{
    let mut layer: u8 = 0;
    for q in 0..n {
        if u8::count_ones(reach[q]) == height {
            layer |= 1 << q;
        }
    }
    layer
}

// The states of the layer that the mask at the following place opens are opened at place p of a cycle; whether there is a new one.
pub fn open_at(
    h: Head,
    counts: &[u8],
    starts: &[u16; 128],
    clauses: &[u8],
    cycle: &[u8],
    layer: u8,
    masks: &mut [u8],
    p: usize,
) -> bool
    requires { CycleReady (rule_of h counts.now clauses.now) starts.now cycle.now
        × (layer < 2 ^ h.n)
        × (length masks.old ≡ length cycle.now)
        × (p < length cycle.now) }
    ensures { (masks.new
        ≡ set masks.old p
        (opened (rule_of h counts.now clauses.now) cycle.now layer masks.old p))
        × (result
        ≡ not
        (eqb
        (opened (rule_of h counts.now clauses.now) cycle.now layer
        masks.old p) (get_or masks.old p 0))) }
{
    let accepting = h.accepting as u8;
    let mut k = p + 1;
    if k == cycle.len() {
        k = 0;
    }
    let old = masks[p];
    let closed = difference(layer, old ^ accepting);
    let met = met_by(
        h,
        counts,
        starts,
        clauses,
        cycle[p] as usize,
        masks[k],
        closed,
    );
    let new = old ^ (closed & (met ^ accepting));
    masks[p] = new;
    new != old
}
