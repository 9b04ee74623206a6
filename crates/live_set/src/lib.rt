// The set that a live log is followed for: the macrostates of a table that letters lead to, a byte for each, 1 in the set, 0 not. The table
// is read in place, 8 bytes a number.

#![tactic(auto)]

pub mod letters;

ghost use Rattle.std.specs.Prelude.{◌≡◌, map, ℕ, ◌+◌, ◌/◌, ◌<◌, ◌≤◌, length, get_or};
ghost use Rattle.sets.specs.Masks.{bit};
ghost use Rattle.sets.specs.Tests.{one};
ghost use Rattle.theory.specs.Macrostate.{begun};
ghost use Rattle.theory.specs.Run.{source_of, target_of};
ghost use Rattle.table_lent.specs.Lent.{words_in};
ghost use Rattle.trim_spec.specs.Graph.{Inside};
ghost use Rattle.live_spec.specs.Afresh.{stepped, initial_set, members_of};
ghost use Rattle.live_spec.specs.State.{set_at, set_bytes};
ghost use Rattle.live_spec.specs.Effects.{put, shown};
ghost use Rattle.live_set.specs.Sweeps.{flag_of_lem, moved, Swept};

use codes::{is_initial, letter_of, source_of, target_of, word_at};

// ---- the initial macrostates

// The byte of a macrostate before any letter: 1 if it is initial, else 0.
fn first_byte(code: u64, initial: u32) -> u8
    requires { initial < 8 }
    ensures { result ≡ one (begun (λ c. bit c initial) code) }
{
    if is_initial(code, initial) {
        return 1;
    }
    0
}

// Writes the set before any letter: the initial macrostates.
pub fn begin_set(initial: u32, codes: &[u8], set: &mut [u8])
    requires { (initial < 8) × (length set.old ≡ length (words_in codes.now)) }
    ensures { set.new ≡ initial_set initial (words_in codes.now) }
{
    for (i, v) in set.iter_mut().enumerate() {
        *v = first_byte(word_at(codes, i * 8), initial);
    }
}

// ---- a letter: bit 0 of a byte tells whether its macrostate was in the set, bit 1 whether it is now

// The byte of a macrostate as 0 or 1.
fn flag(v: u8) -> u8
    ensures { result ≡ flag_of_lem v }
{
    if v == 0 {
        return 0;
    }
    1
}

// Leaves bit 0 alone in each byte, set where the byte is not 0.
fn flag_all(set: &mut [u8])
    ensures { set.new ≡ map flag_of_lem set.old }
{
    for v in set.iter_mut() {
        *v = flag(*v);
    }
}

// Takes bit 0 off each byte.
pub fn halve_all(set: &mut [u8])
    ensures { set.new ≡ map (λ v. v / 2) set.old }
{
    for v in set.iter_mut() {
        *v /= 2;
    }
}

// Sets bit 1 of a transition's target, if the transition is one over the letter from a source in the set.
pub fn move_over(t: u64, letter: usize, set: &mut [u8])
    requires { (source_of t < length set.old) × (target_of t < length set.old) }
    ensures { set.new ≡ moved letter t set.old }
{
    if letter_of(t) != letter {
        return;
    }
    if set[source_of(t)] % 2 == 0 {
        return;
    }
    let y = target_of(t);
    set[y] = 2 + set[y] % 2;
}

// Sets bit 1 of the target of every transition over the letter from a source in the set.
fn sweep(letter: usize, transitions: &[u8], set: &mut [u8])
    requires { Inside (length set.old) (words_in transitions.now) × ((y : ℕ) → get_or set.old y 0 ≤ 1) }
    ensures { Swept letter (words_in transitions.now) set.old set.new }
{
    for i in 0..transitions.len() / 8 {
        // Its byte tells the letter: most transitions are over another one, and then no word is put together.
        let over = transitions[i * 8 + 2] as usize;
        if over != letter {
            continue;
        }
        move_over(word_at(transitions, i * 8), letter, set);
    }
}

// The set after one letter more.
pub fn step_set(letter: usize, transitions: &[u8], set: &mut [u8])
    requires { Inside (length set.old) (words_in transitions.now) }
    ensures { set.new
        ≡ stepped (length set.old) (words_in transitions.now) letter set.old }
{
    flag_all(set);
    sweep(letter, transitions, set);
    halve_all(set);
}

// ---- the set that a state holds, handed out

// Writes a byte 0 or 1 for each of n macrostates; how many are in the set.
pub fn show_set(n: usize, state: &[u8], set: &mut [u8]) -> usize
    requires { (set_at + n ≤ length state.now) × (n ≤ length set.old) }
    ensures { (set.new ≡ put 0 (shown n state.now) set.old)
        × (result ≡ members_of n (set_bytes state.now)) }
{
    let mut members: usize = 0;
    for i in 0..n {
        let v = flag(state[8754 + i]);
        set[i] = v;
        members += v as usize;
    }
    members
}
