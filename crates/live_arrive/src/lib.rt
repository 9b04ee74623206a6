// An arrival in which row 15 is tried on the transitions while the set is stepped, so that they are read twice and not four times.

#![tactic(auto)]

pub mod sweep;

ghost use Rattle.std.specs.Prelude.{◌≡◌, true, ℕ, ◌+◌, ◌≤◌, ◌<◌, length, get_or};
ghost use Rattle.table_lent.specs.Lent.{words_in};
ghost use Rattle.live_spec.specs.declared.LiveCall.TheVariants.{Arrive};
ghost use Rattle.live_spec.specs.State.{set_at};
ghost use Rattle.live_arrive.specs.Quickly.{Coded, Triable, PartStepped, Quickly};

use crate::sweep::{element, is_ascending, step_tried};
use codes::CODE_BITS;
use live_set::letters::{number_at, put_byte, put_number};
use live_spec::LiveCall;

// Whether the arrival was made, was refused by row 15, or was not tried.
#[derive(Clone, Copy)]
pub enum Quick {
    Served,
    Refused,
    Untried,
}

// ---- what is tried before

// Whether codes ascend and have no bit above 47: the last has the highest.
fn codes_pass(codes: &[u8]) -> bool
    ensures { result ≡ true → Coded (words_in codes.now) }
{
    if !is_ascending(codes) {
        return false;
    }
    let n = codes.len() / 8;
    if n == 0 {
        return true;
    }
    element(codes, n - 1) >> CODE_BITS == 0
}

// The larger of two bytes.
fn larger(a: u8, b: u8) -> u8
    ensures { (a ≤ result) × (b ≤ result) }
{
    if a < b {
        return b;
    }
    a
}

// Whether the bytes of state's set of n macrostates are 0 or 1.
fn has_flags(n: usize, state: &[u8]) -> bool
    requires { set_at + n ≤ length state.now }
    ensures { result ≡ true → (y : ℕ) → y < n → get_or state.now (set_at + y) 0 ≤ 1 }
{
    let mut most: u8 = 0;
    for v in &state[8754..8754 + n] {
        most = larger(most, *v);
    }
    most <= 1
}

// Whether no row but 15, for the transitions, refuses the arrival, and the set can be taken back.
fn can_try(
    s: usize,
    letter: u32,
    codes: &[u8],
    transitions: &[u8],
    state: &[u8],
    room: usize,
) -> bool
    ensures { result ≡ true → Triable s letter codes.now transitions.now state.now room }
{
    if s <= letter as usize {
        return false;
    }
    if 512 <= number_at(state, 0) {
        return false;
    }
    if state.len() < 74290 {
        return false;
    }
    if codes.len() % 8 != 0 {
        return false;
    }
    if transitions.len() % 8 != 0 {
        return false;
    }
    let n = codes.len() / 8;
    if 65536 < n {
        return false;
    }
    if room < n {
        return false;
    }
    if !codes_pass(codes) {
        return false;
    }
    has_flags(n, state)
}

// ---- the arrival

// Steps state's set of n macrostates if the transitions pass row 15; whether they do.
fn step_part(s: usize, letter: usize, n: usize, transitions: &[u8], state: &mut [u8]) -> bool
    requires { (letter < s) × (n ≤ 65536) × (set_at + n ≤ length state.old)
        × ((y : ℕ) → y < n → get_or state.old (set_at + y) 0 ≤ 1) }
    ensures { PartStepped s letter n (words_in transitions.now) state.old state.new result }
{
    let from = 8754;
    let end = from + n;
    step_tried(s, letter, transitions, &mut state[from..end])
}

// The arrival of a letter, for a rule of s letters: made where no row refuses, refused by 15 for its transitions, or not tried.
pub fn arrive_quickly(
    s: usize,
    letter: u32,
    codes: &[u8],
    transitions: &[u8],
    state: &mut [u8],
    room: usize,
) -> Quick
    requires { s ≤ 16 }
    ensures { Quickly (Arrive letter) s codes.now transitions.now state.old room state.new result }
{
    if !can_try(s, letter, codes, transitions, state, room) {
        return Quick::Untried;
    }
    let k = number_at(state, 0);
    if !step_part(s, letter as usize, codes.len() / 8, transitions, state) {
        return Quick::Refused;
    }
    put_number(state, 0, k + 1);
    put_byte(state, 50 + k, letter as u8);
    Quick::Served
}

// Any call, for a rule of s letters. An arrival is made where no row refuses, refused by 15 for its transitions, or not tried; no other
// call is tried.
pub fn try_quickly(
    call: LiveCall,
    s: usize,
    codes: &[u8],
    transitions: &[u8],
    state: &mut [u8],
    room: usize,
) -> Quick
    requires { s ≤ 16 }
    ensures { Quickly call s codes.now transitions.now state.old room state.new result }
{
    match call {
        LiveCall::Start => Quick::Untried,
        LiveCall::Arrive(a) => arrive_quickly(s, a, codes, transitions, state, room),
        LiveCall::Withdraw => Quick::Untried,
        LiveCall::Mark(_) => Quick::Untried,
        LiveCall::Return(_) => Quick::Untried,
    }
}
