// The five calls that follow a log live, so that after each letter it is known which macrostates the log leads to: start, arrival,
// withdrawal, mark and return.

#![tactic(auto)]

ghost use Rattle.std.specs.Prelude.{◌≡◌, ◌+◌, ◌≤◌, ◌<◌, length};
ghost use Rattle.refusals.specs.Rows.{first_refusal};
ghost use Rattle.table_lent.specs.Lent.{words_in, in_bytes_lem};
ghost use Rattle.live_spec.specs.State.{set_at};
ghost use Rattle.live_spec.specs.Rows.{live_call_rows};
ghost use Rattle.live_spec.specs.Called.{effect, CalledBy, LiveCalled};
ghost use Rattle.live_state.specs.Ready.{Ready};
ghost use Rattle.live_call.specs.Callable.{Callable, Counted};

use file_read::read_rule;
use live_arrive::{Quick, try_quickly};
use live_rows::call_row;
use live_set::letters::number_at;
use live_set::show_set;
use live_spec::{LiveCall, LiveCounts};
use live_state::effects::{arrive, mark, return_to, start, withdraw};
use refusals::Refusal;
use rule_entries::Head;

// What the call makes of state.
fn change(call: LiveCall, initial: u32, codes: &[u8], transitions: &[u8], state: &mut [u8])
    requires { (initial < 8) × Ready (words_in codes.now) (words_in transitions.now) state.old × Callable call state.old }
    ensures { state.new
        ≡ effect call initial (words_in codes.now) (words_in transitions.now) state.old }
{
    match call {
        LiveCall::Start => start(initial, codes, state),
        LiveCall::Arrive(a) => arrive(a as u8, codes, transitions, state),
        LiveCall::Withdraw => withdraw(initial, codes, transitions, state),
        LiveCall::Mark(m) => mark(m as usize, state),
        LiveCall::Return(m) => return_to(m as usize, initial, codes, transitions, state),
    }
}

// Writes the set of a table's macrostates to its slice; how many letters are held, and how many macrostates are in the set.
fn count(codes: &[u8], state: &[u8], set: &mut [u8]) -> LiveCounts
    requires { (set_at + length (words_in codes.now) ≤ length state.now) × (length (words_in codes.now) ≤ length set.old) }
    ensures { Counted (length (words_in codes.now)) state.now
        set.old state.now set.new result }
{
    let macrostates = show_set(codes.len() / 8, state, set);
    let letters = number_at(state, 0);
    LiveCounts {
        letters,
        macrostates,
    }
}

// The call, and what it leaves counted.
fn serve(
    call: LiveCall,
    initial: u32,
    codes: &[u8],
    transitions: &[u8],
    state: &mut [u8],
    set: &mut [u8],
) -> LiveCounts
    requires { (initial < 8) × Ready (words_in codes.now) (words_in transitions.now) state.old × Callable call state.old
        × (length (words_in codes.now) ≤ length set.old) }
    ensures { Counted (length (words_in codes.now))
        (effect call initial (words_in codes.now) (words_in transitions.now) state.old)
        set.old state.new set.new result }
{
    change(call, initial, codes, transitions, state);
    count(codes, state, set)
}

// The call for a rule that was read: its rows, then what it makes.
fn call_by_rows(
    h: Head,
    call: LiveCall,
    codes: &[u8],
    transitions: &[u8],
    state: &mut [u8],
    set: &mut [u8],
) -> Result<LiveCounts, Refusal>
    requires { (h.initial < 8) × (h.s ≤ 16) }
    ensures { CalledBy
        (first_refusal (live_call_rows call h.s (in_bytes_lem codes.now) (in_bytes_lem transitions.now) state.old
        (length set.old)))
        call h.initial (words_in codes.now) (words_in transitions.now)
        state.old set.old state.new set.new result }
{
    call_row(call, h.s, codes, transitions, state, set.len())?;
    Ok(serve(call, h.initial as u32, codes, transitions, state, set))
}

// The call for a rule that was read: refused by its rows, or made. An arrival is tried at once where no row but 15 for its transitions can
// refuse it.
fn call_read(
    h: Head,
    call: LiveCall,
    codes: &[u8],
    transitions: &[u8],
    state: &mut [u8],
    set: &mut [u8],
) -> Result<LiveCounts, Refusal>
    requires { (h.initial < 8) × (h.s ≤ 16) }
    ensures { CalledBy
        (first_refusal (live_call_rows call h.s (in_bytes_lem codes.now) (in_bytes_lem transitions.now) state.old
        (length set.old)))
        call h.initial (words_in codes.now) (words_in transitions.now)
        state.old set.old state.new set.new result }
{
    let room = set.len();
    match try_quickly(call, h.s, codes, transitions, state, room) {
        Quick::Served => Ok(count(codes, state, set)),
        Quick::Refused => Err(Refusal::Table),
        Quick::Untried => call_by_rows(h, call, codes, transitions, state, set),
    }
}

// A call for a rule's file and a table in bytes, each code and transition as 8 bytes, low byte first. It changes state, and writes the
// set to its slice without reading what was there. A refused call changes nothing.
pub fn live_call(
    file: &[u8],
    call: LiveCall,
    codes: &[u8],
    transitions: &[u8],
    state: &mut [u8],
    set: &mut [u8],
) -> Result<LiveCounts, Refusal>
    ensures { LiveCalled call file.now (in_bytes_lem codes.now) (in_bytes_lem transitions.now)
        state.old set.old state.new set.new result }
{
    let l = read_rule(file)?;
    call_read(l.head, call, codes, transitions, state, set)
}
