// The part of state that holds the set: begun with the initial macrostates, stepped over one letter, or worked out afresh over all letters
// held where some were taken back.
ghost use Rattle.std.specs.Prelude.{◌≡◌, ◌+◌, ◌≤◌, ◌<◌, length, take};
ghost use Rattle.table_lent.specs.Lent.{words_in};
ghost use Rattle.trim_spec.specs.Graph.{Inside};
ghost use Rattle.live_spec.specs.Afresh.{initial_set, stepped, stepped_over};
ghost use Rattle.live_spec.specs.State.{set_at, set_bytes, letters_in};
ghost use Rattle.live_spec.specs.Effects.{with_set, refreshed};
ghost use Rattle.live_state.specs.Ready.{Ready};

use live_set::letters::number_at;
use live_set::{begin_set, step_set};

// Writes the initial macrostates.
pub fn begin(initial: u32, codes: &[u8], state: &mut [u8])
    requires { (initial < 8) × (set_at + length (words_in codes.now) ≤ length state.old) }
    ensures { state.new ≡ with_set (initial_set initial (words_in codes.now)) state.old }
{
    let from = 8754;
    let end = from + codes.len() / 8;
    begin_set(initial, codes, &mut state[from..end]);
}

// Goes one letter on, in a table of n macrostates.
pub fn step(letter: u8, n: usize, transitions: &[u8], state: &mut [u8])
    requires { Inside n (words_in transitions.now) × (set_at + n ≤ length state.old) }
    ensures { state.new
        ≡ with_set (stepped n (words_in transitions.now) letter (set_bytes state.old)) state.old }
{
    let from = 8754;
    let end = from + n;
    step_set(letter as usize, transitions, &mut state[from..end]);
}

// Goes on over the letters held.
fn replay(n: usize, transitions: &[u8], state: &mut [u8])
    requires { Inside n (words_in transitions.now) × (set_at + n ≤ length state.old) }
    ensures { state.new
        ≡ with_set
        (stepped_over n (words_in transitions.now) (letters_in state.old) (take n (set_bytes state.old)))
        state.old }
{
    for i in 0..number_at(state, 0) {
        let letter = state[50 + i];
        step(letter, n, transitions, state);
    }
}

// Works the set out afresh over the letters held.
pub fn refresh(initial: u32, codes: &[u8], transitions: &[u8], state: &mut [u8])
    requires { (initial < 8) × Ready (words_in codes.now) (words_in transitions.now) state.old }
    ensures { state.new
        ≡ refreshed initial (words_in codes.now) (words_in transitions.now) state.old }
{
    begin(initial, codes, state);
    replay(codes.len() / 8, transitions, state);
}
