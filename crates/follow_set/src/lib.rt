// The set taken over letters in place, without memory beside it: the transitions of a macrostate in the set are found by search, and where
// the set's bytes are 0 they are passed over eight at a time. So a letter costs what the set has, not what the table has.

#![tactic(auto)]

ghost use Rattle.std.specs.Prelude.{◌≡◌, List, map, ℕ, ◌+◌, ◌/◌, ◌≤◌, ◌<◌, length, get_or};
ghost use Rattle.sets.specs.Lists.{Ascending};
ghost use Rattle.trim_spec.specs.Graph.{Inside};
ghost use Rattle.table_lent.specs.Lent.{words_in};
ghost use Rattle.live_spec.specs.Afresh.{stepped, members_of};
ghost use Rattle.live_set.specs.Sweeps.{flag_of_lem, Swept};
ghost use Rattle.follow_set.specs.Sweeping.{Placed, Sweeping, Taken};

use codes::{LETTER_SHIFT, pack_transition, target_of, word_at};
use follow_spec::FollowCounts;
use slice_search::bytes::next_set;

// ---- a letter: bit 0 of a byte tells whether its macrostate was in the set, bit 1 whether it is now

// The first place from `from` on whose number is x or more, by binary search.
fn place_from(bytes: &[u8], from: usize, x: u64) -> usize
    requires { (from ≤ length (words_in bytes.now)) × Ascending (words_in bytes.now) }
    ensures { Placed (words_in bytes.now) from x result }
{
    let mut low = from;
    let mut high = bytes.len() / 8;
    // A while: a binary search.
    while low < high {
        let middle = low + (high - low) / 2;
        if word_at(bytes, middle * 8) < x {
            low = middle + 1;
        } else {
            high = middle;
        }
    }
    low
}

// Sets bit 1 of the targets of macrostate x over the letter, if x is in the set. Its transitions are looked for from `from` on; the place
// behind them.
fn move_from(x: usize, letter: usize, from: usize, transitions: &[u8], set: &mut [u8]) -> usize
    requires { (x < length set.old) × (x < 65536) × (letter < 256) × Ascending (words_in transitions.now)
        × Inside (length set.old) (words_in transitions.now) × (from ≤ length (words_in transitions.now)) }
    ensures { ((before : List ℕ) → ((y : ℕ) → get_or before y 0 ≤ 1)
        → Sweeping letter (words_in transitions.now) before set.old x from
        → Sweeping letter (words_in transitions.now) before set.new (x + 1) result)
        × (result ≤ length (words_in transitions.now)) }
{
    if set[x] % 2 == 0 {
        return from;
    }
    let key = pack_transition(x, letter, 0);
    let m = transitions.len() / 8;
    for i in place_from(transitions, from, key)..m {
        let t = word_at(transitions, i * 8);
        if t >> LETTER_SHIFT != key >> LETTER_SHIFT {
            return i;
        }
        let y = target_of(t);
        set[y] = 2 + set[y] % 2;
    }
    m
}

// Sets bit 1 of the target of every transition over the letter from a source in the set.
fn sweep(letter: usize, transitions: &[u8], set: &mut [u8])
    requires { (letter < 256) × (length set.old ≤ 65536) × ((y : ℕ) → get_or set.old y 0 ≤ 1)
        × Ascending (words_in transitions.now) × Inside (length set.old) (words_in transitions.now) }
    ensures { Swept letter (words_in transitions.now) set.old set.new }
{
    let n = set.len();
    let mut from = 0;
    let mut x = next_set(set, 0, n);
    // A while: the place jumps to the next byte that is not 0.
    while x < n {
        from = move_from(x, letter, from, transitions, set);
        x = next_set(set, x + 1, n);
    }
}

// Takes bit 0 off each byte; how many macrostates are in the set then.
fn halve_all(set: &mut [u8]) -> usize
    requires { (y : ℕ) → get_or set.old y 0 ≤ 3 }
    ensures { (set.new ≡ map (λ v. v / 2) set.old)
        × (result ≡ members_of (length set.old) set.new) }
{
    let n = set.len();
    let mut members: usize = 0;
    let mut x = next_set(set, 0, n);
    // A while: the place jumps to the next byte that is not 0.
    while x < n {
        let v = set[x] / 2;
        set[x] = v;
        members += v as usize;
        x = next_set(set, x + 1, n);
    }
    members
}

// The set after one letter more; how many macrostates are in it.
fn step(letter: usize, transitions: &[u8], set: &mut [u8]) -> usize
    requires { (letter < 256) × (length set.old ≤ 65536) × ((y : ℕ) → get_or set.old y 0 ≤ 1)
        × Ascending (words_in transitions.now) × Inside (length set.old) (words_in transitions.now) }
    ensures { (set.new ≡ stepped (length set.old) (words_in transitions.now) letter set.old)
        × (result ≡ members_of (length set.old) set.new) }
{
    sweep(letter, transitions, set);
    halve_all(set)
}

// ---- letters

// Leaves 1 in each byte that is not 0; how many there are.
pub fn flag_all(set: &mut [u8]) -> usize
    ensures { (set.new ≡ map flag_of_lem set.old)
        × (result ≡ members_of (length set.old) set.new) }
{
    let n = set.len();
    let mut members: usize = 0;
    let mut x = next_set(set, 0, n);
    // A while: the place jumps to the next byte that is not 0.
    while x < n {
        set[x] = 1;
        members += 1;
        x = next_set(set, x + 1, n);
    }
    members
}

// The set, of which so many macrostates are left, after all letters. An empty one stays so.
fn step_over(letters: &[u8], transitions: &[u8], members: usize, set: &mut [u8]) -> FollowCounts
    requires { (length set.old ≤ 65536) × ((y : ℕ) → get_or set.old y 0 ≤ 1) × (members ≡ members_of (length set.old) set.old)
        × Ascending (words_in transitions.now) × Inside (length set.old) (words_in transitions.now) }
    ensures { Taken (words_in transitions.now) letters.now set.old set.new result }
{
    let mut left = members;
    for i in 0..letters.len() {
        if left == 0 {
            return FollowCounts {
                left: 0,
                letters: i,
            };
        }
        left = step(letters[i] as usize, transitions, set);
    }
    FollowCounts {
        left,
        letters: letters.len(),
    }
}

// The set of any bytes after all letters.
pub fn take_over(letters: &[u8], transitions: &[u8], set: &mut [u8]) -> FollowCounts
    requires { (length set.old ≤ 65536) × Ascending (words_in transitions.now) × Inside (length set.old) (words_in transitions.now) }
    ensures { Taken (words_in transitions.now) letters.now (map flag_of_lem set.old) set.new result }
{
    let members = flag_all(set);
    step_over(letters, transitions, members, set)
}
