// The C entries that follow a log without end: the start, and the letters since. The set is a slice of the caller and all that is kept, so any
// number of letters may come, in calls of any lengths.
ghost use Rattle.std.specs.Prelude.{◌≡◌, Result};
ghost use Rattle.refusals.specs.declared.Refusal.{Refusal};
ghost use Rattle.table_lent.specs.Lent.{in_bytes_lem};
ghost use Rattle.follow_spec.specs.declared.FollowCounts.{FollowCounts};
ghost use Rattle.follow_spec.specs.Followed.{FollowStarted, FollowCalled};
ghost use Rattle.mulgreddi_answers.specs.Answers.{follow_answer};

use mulgreddi_answers::Answer;

// Fills the set with the initial macrostates; how many there are.
#[unsafe(no_mangle)]
pub extern "C" fn mulgreddi_follow_start(
    file: &[u8],
    codes: &[u8],
    transitions: &[u8],
    set: &mut [u8],
) -> Answer
    ensures { (v : Result FollowCounts Refusal)
        × (result ≡ follow_answer v)
        × FollowStarted file.now (in_bytes_lem codes.now) (in_bytes_lem transitions.now)
        set.old set.new v }
{
    mulgreddi_answers_tables::followed(follow_call::follow_start(file, codes, transitions, set))
}

// Takes the set over some letters; macrostates left, and after how many letters none was for the first time, or all.
#[unsafe(no_mangle)]
pub extern "C" fn mulgreddi_follow(
    file: &[u8],
    letters: &[u8],
    codes: &[u8],
    transitions: &[u8],
    set: &mut [u8],
) -> Answer
    ensures { (v : Result FollowCounts Refusal)
        × (result ≡ follow_answer v)
        × FollowCalled file.now letters.now (in_bytes_lem codes.now) (in_bytes_lem transitions.now)
        set.old set.new v }
{
    mulgreddi_answers_tables::followed(follow_call::follow(file, letters, codes, transitions, set))
}
