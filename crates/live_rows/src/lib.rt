// The rows of the five calls, behind those of the rule: 14, 15, 30 to 33, 16. They are tried before state is written, so that a refused
// call changes nothing.

#![tactic(auto)]

ghost use Rattle.std.specs.Prelude.{◌≡◌, length};
ghost use Rattle.refusals.specs.Rows.{first_refusal};
ghost use Rattle.table_lent.specs.Lent.{in_bytes_lem};
ghost use Rattle.live_spec.specs.declared.LiveCall.TheVariants.{Return};
ghost use Rattle.live_spec.specs.Rows.{arrival_rows, log_rows, slice_rows, live_call_rows};

use live_set::letters::{is_marked, number_at};
use live_spec::LiveCall;
use refusals::Refusal;
use table_rows::rows::table_row;

// Row 14, if the letter that arrives is none of s letters.
#[tactic(auto, unfolding(refusals::specs::Rows::first_refusal, live_spec::specs::Rows::arrival_rows))]
fn letter_row(call: LiveCall, s: usize) -> Result<(), Refusal>
    ensures { result ≡ first_refusal (arrival_rows s call) }
{
    match call {
        LiveCall::Arrive(a) => {
            if s <= a as usize {
                return Err(Refusal::Letter);
            }
            Ok(())
        }
        LiveCall::Start | LiveCall::Withdraw | LiveCall::Mark(_) | LiveCall::Return(_) => Ok(()),
    }
}

// Row 32 or 33, if there is no mark m to return to.
#[tactic(auto, unfolding(refusals::specs::Rows::first_refusal, live_spec::specs::Rows::log_rows))]
fn return_row(m: u32, state: &[u8]) -> Result<(), Refusal>
    ensures { result ≡ first_refusal (log_rows (Return m) state.now) }
{
    if 15 < m {
        return Err(Refusal::Mark);
    }
    if !is_marked(state, m as usize) {
        return Err(Refusal::MarkNotSet);
    }
    Ok(())
}

// What of rows 30 to 33 refuses the call, if one does.
#[tactic(auto, unfolding(refusals::specs::Rows::first_refusal, live_spec::specs::Rows::log_rows))]
fn log_row(call: LiveCall, state: &[u8]) -> Result<(), Refusal>
    ensures { result ≡ first_refusal (log_rows call state.now) }
{
    match call {
        LiveCall::Start => Ok(()),
        LiveCall::Arrive(_) => {
            if 512 <= number_at(state, 0) {
                return Err(Refusal::LogFull);
            }
            Ok(())
        }
        LiveCall::Withdraw => {
            if number_at(state, 0) == 0 {
                return Err(Refusal::LogEmpty);
            }
            Ok(())
        }
        LiveCall::Mark(m) => {
            if 15 < m {
                return Err(Refusal::Mark);
            }
            Ok(())
        }
        LiveCall::Return(m) => return_row(m, state),
    }
}

// Row 16, if state or the slice of the set is too short for n macrostates.
#[tactic(auto, unfolding(refusals::specs::Rows::first_refusal, live_spec::specs::Rows::slice_rows))]
fn slice_row(n: usize, state: &[u8], room: usize) -> Result<(), Refusal>
    ensures { result ≡ first_refusal (slice_rows n state.now room) }
{
    if state.len() < 74290 {
        return Err(Refusal::Slice);
    }
    if room < n {
        return Err(Refusal::Slice);
    }
    Ok(())
}

// What refuses the call first, for a rule of s letters and a table in bytes.
#[tactic(auto, using(refusals::proofs::Rows::refusal_and, table_lent::proofs::Reading::both_bytes), unfolding(refusals::specs::Rows::first_refusal, live_spec::specs::Rows::live_call_rows))]
pub fn call_row(
    call: LiveCall,
    s: usize,
    codes: &[u8],
    transitions: &[u8],
    state: &[u8],
    room: usize,
) -> Result<(), Refusal>
    ensures { result
        ≡ first_refusal (live_call_rows call s (in_bytes_lem codes.now) (in_bytes_lem transitions.now) state.now room) }
{
    letter_row(call, s)?;
    let words = [0u64; 1];
    let none = &words[..0];
    table_row(s, none, codes, none, transitions)?;
    log_row(call, state)?;
    slice_row(codes.len() / 8, state, room)
}
