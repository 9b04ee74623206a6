// An arrival that tries row 15 on the way, so that the transitions are read twice: a pass for their order, and one for their ranges that
// steps the set. The set's bytes are 0 or 1 before, so what was swept can be taken back.
ghost use Rattle.std.specs.Prelude.{◌≡◌, true, ℕ, ◌+◌, ◌%◌, ◌≤◌, ◌<◌, length, get_or};
ghost use mathlib.Core.List.{map, Memᴰ};
ghost use Rattle.theory.specs.Run.{source_of, letter_of_lem, target_of};
ghost use Rattle.slice_search.specs.Places.{ascends};
ghost use Rattle.table_lent.specs.Lent.{words_in};
ghost use Rattle.live_arrive.specs.Tried.{rises_four, limit_of_lem, Sourced, Told, Tried, Stepped};

use codes::{letter_of, source_of, target_of, word_at};
use live_set::{halve_all, move_over};

// ---- order

// The number at place i.
pub fn element(bytes: &[u8], i: usize) -> u64
    requires { i < length (words_in bytes.now) }
    ensures { result ≡ get_or (words_in bytes.now) i 0 }
{
    word_at(bytes, i * 8)
}

// Whether the four numbers from place i on ascend strictly from above `last`.
fn rise_four(bytes: &[u8], i: usize, last: u64) -> bool
    requires { i + 4 ≤ length (words_in bytes.now) }
    ensures { result ≡ rises_four last (words_in bytes.now) i }
{
    let a = element(bytes, i);
    if a <= last {
        return false;
    }
    let b = element(bytes, i + 1);
    if b <= a {
        return false;
    }
    let c = element(bytes, i + 2);
    if c <= b {
        return false;
    }
    c < element(bytes, i + 3)
}

// Whether the numbers ascend strictly.
pub fn is_ascending(bytes: &[u8]) -> bool
    ensures { result ≡ ascends (words_in bytes.now) }
{
    let n = bytes.len() / 8;
    if n == 0 {
        return true;
    }
    let mut last = element(bytes, 0);
    let mut i = 1;
    // A while: four numbers a turn take half the time of one a turn.
    while i + 4 <= n {
        if !rise_four(bytes, i, last) {
            return false;
        }
        last = element(bytes, i + 3);
        i += 4;
    }
    for j in i..n {
        let x = element(bytes, j);
        if x <= last {
            return false;
        }
        last = x;
    }
    true
}

// Whether the sources of ascending transitions are below n: the last has the largest.
fn ends_below(transitions: &[u8], n: usize) -> bool
    requires { ascends (words_in transitions.now) ≡ true }
    ensures { Sourced n (words_in transitions.now) result }
{
    let m = transitions.len() / 8;
    if m == 0 {
        return true;
    }
    source_of(element(transitions, m - 1)) < n
}

// ---- ranges

// The least target that wants a closer look in a transition over l: n for a letter below s that is not the one that arrives, else 0.
fn limit_of(s: usize, n: usize, letter: usize, l: usize) -> u32
    requires { n ≤ 65536 }
    ensures { result ≡ limit_of_lem s n letter l }
{
    if l == letter {
        return 0;
    }
    if s <= l {
        return 0;
    }
    n as u32
}

// For every letter the least target that wants a closer look in a transition over it, where `letter` is the one that arrives.
fn limits_of(s: usize, n: usize, letter: usize) -> [u32; 256]
    requires { n ≤ 65536 }
    ensures { (l : ℕ) → l < 256 → get_or result l 0 ≡ limit_of_lem s n letter l }
{
    let mut limits = [0u32; 256];
    for (l, limit) in limits.iter_mut().enumerate() {
        *limit = limit_of(s, n, letter, l);
    }
    limits
}

// The closer look: a transition over the letter is swept if its target is in range; one over another letter is out of range.
fn look_closer(t: u64, letter: usize, set: &mut [u8]) -> bool
    requires { source_of t < length set.old }
    ensures { (s : ℕ) → letter < s → limit_of_lem s (length set.old) letter (letter_of_lem t) ≤ target_of t
        → Told s letter t set.old set.new result }
{
    if letter_of(t) != letter {
        return false;
    }
    if set.len() <= target_of(t) {
        return false;
    }
    move_over(t, letter, set);
    true
}

// Whether a transition is in range, by the limit of its letter.
fn sweep_one(t: u64, limit: u32, letter: usize, set: &mut [u8]) -> bool
    requires { source_of t < length set.old }
    ensures { (s : ℕ) → letter < s → limit ≡ limit_of_lem s (length set.old) letter (letter_of_lem t)
        → Told s letter t set.old set.new result }
{
    if target_of(t) < limit as usize {
        return true;
    }
    look_closer(t, letter, set)
}

// Whether the transitions are in range, with as many codes as the set has bytes and s letters. They are swept up to the first that is not.
fn sweep_tried(s: usize, letter: usize, transitions: &[u8], set: &mut [u8]) -> bool
    requires { (letter < s) × (length set.old ≤ 65536) × ((y : ℕ) → get_or set.old y 0 ≤ 1)
        × ((t : ℕ) → Memᴰ t (words_in transitions.now) → source_of t < length set.old) }
    ensures { Tried s letter (words_in transitions.now) set.old set.new result }
{
    let limits = limits_of(s, set.len(), letter);
    for i in 0..transitions.len() / 8 {
        let t = element(transitions, i);
        if !sweep_one(t, limits[letter_of(t)], letter, set) {
            return false;
        }
    }
    true
}

// ---- the step

// Takes what was swept back.
fn keep_low(set: &mut [u8])
    ensures { set.new ≡ map (λ v. v % 2) set.old }
{
    for v in set.iter_mut() {
        *v %= 2;
    }
}

// The set after one letter more if the transitions pass row 15, and as it was if they do not; whether they do.
pub fn step_tried(s: usize, letter: usize, transitions: &[u8], set: &mut [u8]) -> bool
    requires { (letter < s) × (length set.old ≤ 65536) × ((y : ℕ) → get_or set.old y 0 ≤ 1) }
    ensures { Stepped s letter (words_in transitions.now) set.old set.new result }
{
    if !is_ascending(transitions) {
        return false;
    }
    if !ends_below(transitions, set.len()) {
        return false;
    }
    if sweep_tried(s, letter, transitions, set) {
        halve_all(set);
        return true;
    }
    keep_low(set);
    false
}
