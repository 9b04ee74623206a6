// What each of the five calls makes of state. An arrival steps the set; a step has no inverse, so a withdrawal and a return work the set
// out afresh.
ghost use Rattle.std.specs.Prelude.{◌≡◌, List, ℕ, ◌≤◌, ◌<◌, length};
ghost use Rattle.table_lent.specs.Lent.{words_in};
ghost use Rattle.live_spec.specs.State.{state_length_lem, number_in};
ghost use Rattle.live_spec.specs.Effects.{started, arrived, withdrawn, marked, returned};
ghost use Rattle.live_state.specs.Ready.{Ready};

use crate::set_part::{begin, refresh, step};
use live_set::letters::{copy_letters, number_at, put_byte, put_number};
use slice_search::bytes::fill_with;

// No letters, no marks, and the initial macrostates.
pub fn start(initial: u32, codes: &[u8], state: &mut [u8])
    requires { (initial < 8) × (length (words_in codes.now) ≤ 65536) × (state_length_lem ≤ length state.old) }
    ensures { (transitions : List ℕ)
        → state.new ≡ started initial (words_in codes.now) transitions state.old }
{
    let end = 74290;
    fill_with(&mut state[..end], 0);
    begin(initial, codes, state);
}

// One letter more.
pub fn arrive(letter: u8, codes: &[u8], transitions: &[u8], state: &mut [u8])
    requires { Ready (words_in codes.now) (words_in transitions.now) state.old × (number_in state.old < 512) }
    ensures { (initial : ℕ) → state.new
        ≡ arrived initial (words_in codes.now) (words_in transitions.now) letter state.old }
{
    let n = number_at(state, 0);
    put_number(state, 0, n + 1);
    put_byte(state, 50 + n, letter);
    step(letter, codes.len() / 8, transitions, state);
}

// One letter less.
pub fn withdraw(initial: u32, codes: &[u8], transitions: &[u8], state: &mut [u8])
    requires { (initial < 8) × Ready (words_in codes.now) (words_in transitions.now) state.old × (0 < number_in state.old) }
    ensures { state.new
        ≡ withdrawn initial (words_in codes.now) (words_in transitions.now) state.old }
{
    let n = number_at(state, 0) - 1;
    put_number(state, 0, n);
    put_byte(state, 50 + n, 0);
    refresh(initial, codes, transitions, state);
}

// Sets mark m, or sets it again.
pub fn mark(m: usize, state: &mut [u8])
    requires { (m < 16) × (state_length_lem ≤ length state.old) }
    ensures { state.new ≡ marked m state.old }
{
    let n = number_at(state, 0);
    put_byte(state, 2 + m, 1);
    put_number(state, 18 + 2 * m, n);
    copy_letters(state, 50, 562 + 512 * m);
}

// Returns to mark m.
pub fn return_to(m: usize, initial: u32, codes: &[u8], transitions: &[u8], state: &mut [u8])
    requires { (m < 16) × (initial < 8) × Ready (words_in codes.now) (words_in transitions.now) state.old }
    ensures { state.new
        ≡ returned initial (words_in codes.now) (words_in transitions.now) m state.old }
{
    let n = number_at(state, 18 + 2 * m);
    put_number(state, 0, n);
    copy_letters(state, 562 + 512 * m, 50);
    refresh(initial, codes, transitions, state);
}
