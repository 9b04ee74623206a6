// The choices of the rejecting states. Within the component their clause has to lead to smaller distances, and rounds count these: round d
// finds the states of distance d.

#![tactic(auto)]

ghost use Rattle.std.specs.Prelude.{◌≡◌, false, ◌&&◌, ◌||◌, not, List, ℕ, ◌+◌, ◌*◌, ◌^◌, ◌≤◌, ◌<◌, eqb, length, get_or};
ghost use Rattle.sets.specs.Masks.{bit};
ghost use Rattle.theory.specs.Word.{places, next_place_lem};
ghost use Rattle.rule_entries.specs.Entries.{rule_of};
ghost use Rattle.judge_choices_spec.specs.Rounds.{Ready, Place, Round, Ended};

use judge_choices_place::{Partition, choose_each};
use set_masks::difference;
use word_rows::{letter_at, next_place};

// The choices of the rejecting states at place p that are new in a round: near has the states of the rounds before. These states.
pub fn choose_at(
    rule: Partition,
    counts: &[u8],
    starts: &[u16; 128],
    clauses: &[u8],
    lead: &[u8],
    cycle: &[u8],
    masks: &[u8],
    near: &[u8; 64],
    choices: &mut [u8],
    p: usize,
) -> u8
    requires { Ready (rule_of rule.head counts.now clauses.now) starts.now rule.classes lead.now cycle.now masks.now
        × ((k : ℕ) → k < places lead.now cycle.now → get_or near.now k 0 < 2 ^ rule.head.n)
        × (places lead.now cycle.now * rule.head.n ≤ length choices.old)
        × (p < places lead.now cycle.now) }
    ensures { Place (rule_of rule.head counts.now clauses.now) lead.now cycle.now
        masks.now near.now p choices.old choices.new result }
{
    let h = rule.head;
    let k = next_place(lead.len(), cycle.len(), p);
    let rejecting = difference(masks[p], h.accepting as u8);
    choose_each(
        rule,
        counts,
        starts,
        clauses,
        letter_at(lead, cycle, p) as usize,
        masks[k],
        near[k],
        difference(rejecting, near[p]),
        choices,
        p * h.n,
    )
}

// The places in changed, and place p if a state is new there.
pub fn mark(changed: u64, found: u8, p: usize) -> u64
    requires { p < 64 }
    ensures { (x : ℕ) → bit result x ≡ (bit changed x || (eqb x p && not (eqb found 0))) }
{
    if found == 0 {
        return changed;
    }
    changed | 1 << p
}

// One round at the places of work: near has the states of the rounds before, and becomes near with the new states.
// The places where there is one.
pub fn round(
    rule: Partition,
    counts: &[u8],
    starts: &[u16; 128],
    clauses: &[u8],
    lead: &[u8],
    cycle: &[u8],
    masks: &[u8],
    near: &mut [u8; 64],
    choices: &mut [u8],
    work: u64,
) -> u64
    requires { Ready (rule_of rule.head counts.now clauses.now) starts.now rule.classes lead.now cycle.now masks.now
        × ((k : ℕ) → k < places lead.now cycle.now → get_or near.old k 0 < 2 ^ rule.head.n)
        × (places lead.now cycle.now * rule.head.n ≤ length choices.old)
        × (work < 2 ^ places lead.now cycle.now)
        × (length near.old ≡ 64) }
    ensures { Round (rule_of rule.head counts.now clauses.now) lead.now cycle.now
        masks.now near.old (bit work) choices.old choices.new near.new result
        × (length near.new ≡ 64) }
{
    let before = *near;
    let mut changed: u64 = 0;
    let mut left = work;
    // A while: it visits the set bits alone.
    while left != 0 {
        let p = u64::trailing_zeros(left) as usize;
        let found = choose_at(
            rule, counts, starts, clauses, lead, cycle, masks, &before, choices, p,
        );
        near[p] = before[p] | found;
        changed = mark(changed, found, p);
        left &= left - 1;
    }
    changed
}

// The places that are followed by a place of changed: at is the cycle's first place, end the number of places.
pub fn places_before(changed: u64, at: usize, end: usize) -> u64
    requires { (at < end) × (end ≤ 64) × (changed < 2 ^ end) }
    ensures { (result < 2 ^ end)
        × ((u v : List ℕ) → length u ≡ at → length u + length v ≡ end
        → (p : ℕ) → p < end → bit result p ≡ false → bit changed (next_place_lem u v p) ≡ false) }
{
    let before = changed >> 1;
    if (changed >> at) & 1 == 0 {
        return before;
    }
    before | 1 << (end - 1)
}

// The choices of the rejecting states: in round d those of distance d. A round looks only at places
// whose next place changed in the round before. No distance is above places × states.
pub fn choose_rejecting(
    rule: Partition,
    counts: &[u8],
    starts: &[u16; 128],
    clauses: &[u8],
    lead: &[u8],
    cycle: &[u8],
    masks: &[u8],
    choices: &mut [u8],
)
    requires { Ready (rule_of rule.head counts.now clauses.now) starts.now rule.classes lead.now cycle.now masks.now
        × (places lead.now cycle.now * rule.head.n ≤ length choices.old) }
    ensures { Ended (rule_of rule.head counts.now clauses.now) lead.now cycle.now
        masks.now choices.old choices.new }
{
    let h = rule.head;
    let at = lead.len();
    let end = at + cycle.len();
    let mut near = [0u8; 64];
    let mut work = u64::MAX >> (64 - end);
    for _ in 0..end * h.n {
        if work == 0 {
            return;
        }
        let changed = round(
            rule, counts, starts, clauses, lead, cycle, masks, &mut near, choices, work,
        );
        work = places_before(changed, at, end);
    }
}
