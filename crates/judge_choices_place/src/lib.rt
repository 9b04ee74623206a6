// The laws of the choices of a word, and the states of one place, each tried against its entry: the step that the choices of accepting and
// of rejecting states share.

#![tactic(auto)]

ghost use Rattle.std.specs.Prelude.{◌≡◌, ◌+◌, ◌^◌, ◌≤◌, ◌<◌, is_some, length};
ghost use Rattle.theory.specs.Rule.{entry};
ghost use Rattle.theory.specs.Passing.{WellFormed};
ghost use Rattle.rule_entries.specs.Entries.{rule_of};
ghost use Rattle.rule_entries.specs.Met.{met_of};
ghost use Rattle.rule_entries.specs.Starts.{EntryStarts};
ghost use Rattle.rule_reach.specs.Tables.{closures_of};
ghost use Rattle.judge_choices_spec.specs.Rounds.{Classes, put_met, Tried};

use rule_components::class_of;
use rule_entries::{Head, met_at};
use set_masks::difference;

// The numbers of a rule and, for each of its states, the mask of its component.
#[derive(Clone, Copy)]
pub struct Partition {
    pub head: Head,
    pub classes: [u8; 8],
}

// For each state the mask of its component, from the table of what each state reaches.
pub fn classes_of(h: Head, counts: &[u8], clauses: &[u8], reach: &[u8; 8]) -> [u8; 8]
    requires { WellFormed (rule_of h counts.now clauses.now) × (reach.now ≡ closures_of (rule_of h counts.now clauses.now)) }
    ensures { Classes (rule_of h counts.now clauses.now) result }
{
    let mut classes = [0u8; 8];
    for q in 0..h.n {
        classes[q] = class_of(reach, h.n, q);
    }
    classes
}

// The number of the first clause of state q at letter a that the set meets goes to index i; whether there is one.
pub fn choose(
    h: Head,
    counts: &[u8],
    starts: &[u16; 128],
    clauses: &[u8],
    q: usize,
    a: usize,
    set: u8,
    choices: &mut [u8],
    i: usize,
) -> bool
    requires { WellFormed (rule_of h counts.now clauses.now)
        × EntryStarts counts.now starts.now
        × (q < h.n)
        × (a < h.s)
        × (i < length choices.old) }
    ensures { let m = met_of set (entry (rule_of h counts.now clauses.now) q a) in
        (result ≡ is_some m) × (choices.new ≡ put_met m i choices.old) }
{
    match met_at(h, counts, starts, clauses, q, a, set) {
        Some(j) => {
            choices[i] = j as u8;
            true
        }
        None => false,
    }
}

// Each of the states is tried at letter a: its clause is met by the mask all outside its component and by the mask near inside it.
// The number of the clause goes to index base + state; the states that meet one.
pub fn choose_each(
    rule: Partition,
    counts: &[u8],
    starts: &[u16; 128],
    clauses: &[u8],
    a: usize,
    all: u8,
    near: u8,
    states: u8,
    choices: &mut [u8],
    base: usize,
) -> u8
    requires { WellFormed (rule_of rule.head counts.now clauses.now)
        × EntryStarts counts.now starts.now
        × Classes (rule_of rule.head counts.now clauses.now) rule.classes
        × (a < rule.head.s)
        × (all < 2 ^ rule.head.n)
        × (near < 2 ^ rule.head.n)
        × (states < 2 ^ rule.head.n)
        × (base + rule.head.n ≤ length choices.old) }
    ensures { Tried (rule_of rule.head counts.now clauses.now) a all near states base
        choices.old choices.new result }
{
    let h = rule.head;
    let classes = rule.classes;
    let mut found: u8 = 0;
    let mut left = states;
    // A while: it visits the set bits alone.
    while left != 0 {
        let q = u8::trailing_zeros(left) as usize;
        let class = classes[q];
        let set = difference(all, class) | (near & class);
        if choose(h, counts, starts, clauses, q, a, set, choices, base + q) {
            found |= 1 << q;
        }
        left &= left - 1;
    }
    found
}
