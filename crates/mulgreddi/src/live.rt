// The C entries that follow a log live: start, arrival, withdrawal, mark and return. State is a slice of the caller, so several logs can be
// followed side by side.
ghost use Rattle.std.specs.Prelude.{◌≡◌, Result};
ghost use Rattle.refusals.specs.declared.Refusal.{Refusal};
ghost use Rattle.table_lent.specs.Lent.{in_bytes_lem};
ghost use Rattle.live_spec.specs.declared.LiveCounts.{LiveCounts};
ghost use Rattle.live_spec.specs.declared.LiveCall.TheVariants.{Start, Arrive, Withdraw, Mark, Return};
ghost use Rattle.live_spec.specs.Called.{LiveCalled};
ghost use Rattle.mulgreddi_answers.specs.Answers.{live_answer};

use live_spec::LiveCall;
use mulgreddi_answers::Answer;

// Begins with no letters and no marks; letters held, macrostates in the set.
#[unsafe(no_mangle)]
pub extern "C" fn mulgreddi_live_start(
    file: &[u8],
    codes: &[u8],
    transitions: &[u8],
    state: &mut [u8],
    set: &mut [u8],
) -> Answer
    ensures { (v : Result LiveCounts Refusal)
        × (result ≡ live_answer v)
        × LiveCalled Start file.now (in_bytes_lem codes.now) (in_bytes_lem transitions.now)
        state.old set.old state.new set.new v }
{
    mulgreddi_answers_tables::live(live_call::live_call(
        file,
        LiveCall::Start,
        codes,
        transitions,
        state,
        set,
    ))
}

// A letter more.
#[unsafe(no_mangle)]
pub extern "C" fn mulgreddi_live_arrive(
    file: &[u8],
    letter: u32,
    codes: &[u8],
    transitions: &[u8],
    state: &mut [u8],
    set: &mut [u8],
) -> Answer
    ensures { (v : Result LiveCounts Refusal)
        × (result ≡ live_answer v)
        × LiveCalled (Arrive letter) file.now (in_bytes_lem codes.now) (in_bytes_lem transitions.now)
        state.old set.old state.new set.new v }
{
    mulgreddi_answers_tables::live(live_call::live_call(
        file,
        LiveCall::Arrive(letter),
        codes,
        transitions,
        state,
        set,
    ))
}

// Without the last letter.
#[unsafe(no_mangle)]
pub extern "C" fn mulgreddi_live_withdraw(
    file: &[u8],
    codes: &[u8],
    transitions: &[u8],
    state: &mut [u8],
    set: &mut [u8],
) -> Answer
    ensures { (v : Result LiveCounts Refusal)
        × (result ≡ live_answer v)
        × LiveCalled Withdraw file.now (in_bytes_lem codes.now) (in_bytes_lem transitions.now)
        state.old set.old state.new set.new v }
{
    mulgreddi_answers_tables::live(live_call::live_call(
        file,
        LiveCall::Withdraw,
        codes,
        transitions,
        state,
        set,
    ))
}

// Sets a mark, 0 to 15, or sets it again.
#[unsafe(no_mangle)]
pub extern "C" fn mulgreddi_live_mark(
    file: &[u8],
    mark: u32,
    codes: &[u8],
    transitions: &[u8],
    state: &mut [u8],
    set: &mut [u8],
) -> Answer
    ensures { (v : Result LiveCounts Refusal)
        × (result ≡ live_answer v)
        × LiveCalled (Mark mark) file.now (in_bytes_lem codes.now) (in_bytes_lem transitions.now)
        state.old set.old state.new set.new v }
{
    mulgreddi_answers_tables::live(live_call::live_call(
        file,
        LiveCall::Mark(mark),
        codes,
        transitions,
        state,
        set,
    ))
}

// Back to the letters and the set held when the mark was last set.
#[unsafe(no_mangle)]
pub extern "C" fn mulgreddi_live_return(
    file: &[u8],
    mark: u32,
    codes: &[u8],
    transitions: &[u8],
    state: &mut [u8],
    set: &mut [u8],
) -> Answer
    ensures { (v : Result LiveCounts Refusal)
        × (result ≡ live_answer v)
        × LiveCalled (Return mark) file.now (in_bytes_lem codes.now) (in_bytes_lem transitions.now)
        state.old set.old state.new set.new v }
{
    mulgreddi_answers_tables::live(live_call::live_call(
        file,
        LiveCall::Return(mark),
        codes,
        transitions,
        state,
        set,
    ))
}
