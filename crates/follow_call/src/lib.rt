// The two calls that follow a log without end, so that a log may have any number of letters: the start, and the letters since. The rows are
// tried before the set is written, so that a refused call changes nothing.

#![tactic(auto)]

ghost use Rattle.std.specs.Prelude.{◌≡◌, [], ◌++◌, ◌≤◌, ◌<◌, length, drop};
ghost use Rattle.sets.specs.Lists.{Ascending};
ghost use Rattle.refusals.specs.Rows.{first_refusal};
ghost use Rattle.trim_spec.specs.Graph.{Inside};
ghost use Rattle.table_lent.specs.Lent.{words_in, in_bytes_lem};
ghost use Rattle.live_spec.specs.Afresh.{initial_set, members_of};
ghost use Rattle.follow_spec.specs.Set.{flags, reached, emptied_after};
ghost use Rattle.follow_spec.specs.Rows.{letter_rows, set_rows, follow_call_rows};
ghost use Rattle.follow_spec.specs.Followed.{FollowedBy, FollowStarted, FollowCalled};
ghost use Rattle.follow_call.specs.Parts.{PartLeft};

use file_read::read_rule;
use follow_set::{flag_all, take_over};
use follow_spec::FollowCounts;
use live_set::begin_set;
use refusals::Refusal;
use rule_entries::Head;
use slice_search::any_from;
use table_rows::rows::table_row;

// ---- rows

// Row 14, if a letter is none of s letters.
#[tactic(auto, unfolding(refusals::specs::Rows::first_refusal, follow_spec::specs::Rows::letter_rows))]
fn letter_row(s: usize, letters: &[u8]) -> Result<(), Refusal>
    ensures { result ≡ first_refusal (letter_rows s letters.now) }
{
    if any_from(letters, s) {
        return Err(Refusal::Letter);
    }
    Ok(())
}

// Row 16, if the slice of the set is too short for n macrostates.
#[tactic(auto, unfolding(refusals::specs::Rows::first_refusal, follow_spec::specs::Rows::set_rows))]
fn set_row(n: usize, room: usize) -> Result<(), Refusal>
    ensures { result ≡ first_refusal (set_rows n room) }
{
    if room < n {
        return Err(Refusal::Slice);
    }
    Ok(())
}

// What refuses the call first, for a rule of s letters and a table in bytes.
#[tactic(auto, using(refusals::proofs::Rows::refusal_and, table_lent::proofs::Reading::both_bytes), unfolding(refusals::specs::Rows::first_refusal, follow_spec::specs::Rows::follow_call_rows))]
fn call_row(
    s: usize,
    letters: &[u8],
    codes: &[u8],
    transitions: &[u8],
    room: usize,
) -> Result<(), Refusal>
    ensures { result
        ≡ first_refusal (follow_call_rows s letters.now (in_bytes_lem codes.now) (in_bytes_lem transitions.now) room) }
{
    letter_row(s, letters)?;
    let words = [0u64; 1];
    let none = &words[..0];
    table_row(s, none, codes, none, transitions)?;
    set_row(codes.len() / 8, room)
}

// ---- the set of a table's macrostates, in front of its slice

// Writes the initial macrostates; how many there are.
fn begin_part(initial: u32, codes: &[u8], set: &mut [u8]) -> usize
    requires { (initial < 8) × (length set.old ≡ length (words_in codes.now)) }
    ensures { (set.new ≡ initial_set initial (words_in codes.now))
        × (result ≡ members_of (length (words_in codes.now)) set.new) }
{
    begin_set(initial, codes, set);
    flag_all(set)
}

// Fills it with the initial macrostates.
fn begin(initial: u32, codes: &[u8], set: &mut [u8]) -> FollowCounts
    requires { (initial < 8) × (length (words_in codes.now) ≤ length set.old) }
    ensures { PartLeft (length (words_in codes.now)) (initial_set initial (words_in codes.now)) 0
        set.old set.new result }
{
    let n = codes.len() / 8;
    let left = begin_part(initial, codes, &mut set[..n]);
    FollowCounts { left, letters: 0 }
}

// Takes it over the letters, in a table of n macrostates.
fn go_on(letters: &[u8], n: usize, transitions: &[u8], set: &mut [u8]) -> FollowCounts
    requires { (n ≤ 65536) × (n ≤ length set.old) × Ascending (words_in transitions.now) × Inside n (words_in transitions.now) }
    ensures { PartLeft n (reached n (words_in transitions.now) letters.now set.old)
        (emptied_after n (words_in transitions.now) letters.now (flags n set.old))
        set.old set.new result }
{
    take_over(letters, transitions, &mut set[..n])
}

// ---- for a rule that was read

fn start_read(
    h: Head,
    codes: &[u8],
    transitions: &[u8],
    set: &mut [u8],
) -> Result<FollowCounts, Refusal>
    requires { h.initial < 8 }
    ensures { FollowedBy
        (first_refusal (follow_call_rows h.s [] (in_bytes_lem codes.now) (in_bytes_lem transitions.now) (length set.old)))
        (length (words_in codes.now)) (initial_set h.initial (words_in codes.now)) 0
        set.old set.new result }
{
    call_row(h.s, &codes[..0], codes, transitions, set.len())?;
    Ok(begin(h.initial as u32, codes, set))
}

fn follow_read(
    h: Head,
    letters: &[u8],
    codes: &[u8],
    transitions: &[u8],
    set: &mut [u8],
) -> Result<FollowCounts, Refusal>
    ensures { FollowedBy
        (first_refusal (follow_call_rows h.s letters.now (in_bytes_lem codes.now) (in_bytes_lem transitions.now)
        (length set.old)))
        (length (words_in codes.now))
        (reached (length (words_in codes.now)) (words_in transitions.now) letters.now set.old)
        (emptied_after (length (words_in codes.now)) (words_in transitions.now) letters.now
        (flags (length (words_in codes.now)) set.old))
        set.old set.new result }
{
    call_row(h.s, letters, codes, transitions, set.len())?;
    Ok(go_on(letters, codes.len() / 8, transitions, set))
}

// ---- the calls

// Begins: writes the initial macrostates of a table in bytes, each code and transition as 8 bytes, low byte first.
pub fn follow_start(
    file: &[u8],
    codes: &[u8],
    transitions: &[u8],
    set: &mut [u8],
) -> Result<FollowCounts, Refusal>
    ensures { FollowStarted file.now (in_bytes_lem codes.now) (in_bytes_lem transitions.now)
        set.old set.new result }
{
    let l = read_rule(file)?;
    start_read(l.head, codes, transitions, set)
}

// Takes the set that a start or a call left over some letters more.
pub fn follow(
    file: &[u8],
    letters: &[u8],
    codes: &[u8],
    transitions: &[u8],
    set: &mut [u8],
) -> Result<FollowCounts, Refusal>
    ensures { FollowCalled file.now letters.now (in_bytes_lem codes.now)
        (in_bytes_lem transitions.now) set.old set.new result }
{
    let l = read_rule(file)?;
    follow_read(l.head, letters, codes, transitions, set)
}
