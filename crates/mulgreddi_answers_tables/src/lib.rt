// The answers on tables and logs as the three numbers of the C interface: builds, the judge on a table, texts read back, translated logs,
// live logs and logs without end.

#![tactic(auto)]

ghost use Rattle.std.specs.Prelude.{◌≡◌};
ghost use Rattle.mulgreddi_answers.specs.Answers.{built_answer, follow_answer, hoa_read_answer, live_answer, start_answer, translated_answer};

use build::Counts;
use follow_spec::FollowCounts;
use hoa_spec::TableSizes;
use live_spec::LiveCounts;
use mulgreddi_answers::Answer;
use refusals::Refusal;

// Both counts.
#[tactic(auto, unfolding(mulgreddi_answers::specs::Answers::built_answer))]
pub fn built(answer: Result<Counts, Refusal>) -> Answer
    ensures { result ≡ built_answer answer }
{
    mulgreddi_answers::answered(answer)
}

// Both numbers that a text carries.
#[tactic(auto, unfolding(mulgreddi_answers::specs::Answers::hoa_read_answer))]
pub fn read_back(answer: Result<TableSizes, Refusal>) -> Answer
    ensures { result ≡ hoa_read_answer answer }
{
    mulgreddi_answers::answered(answer)
}

// 1 and the number for yes, 0 for no.
#[tactic(auto, unfolding(mulgreddi_answers::specs::Answers::start_answer))]
pub fn start(answer: Result<Option<usize>, Refusal>) -> Answer
    ensures { result ≡ start_answer answer }
{
    mulgreddi_answers::answered(answer)
}

// The number of letters written.
#[tactic(auto, unfolding(mulgreddi_answers::specs::Answers::translated_answer))]
pub fn translated(letters: Result<usize, Refusal>) -> Answer
    ensures { result ≡ translated_answer letters }
{
    mulgreddi_answers::answered(letters)
}

// The number of letters held, and of macrostates in the set.
#[tactic(auto, unfolding(mulgreddi_answers::specs::Answers::live_answer))]
pub fn live(answer: Result<LiveCounts, Refusal>) -> Answer
    ensures { result ≡ live_answer answer }
{
    mulgreddi_answers::answered(answer)
}

// How many macrostates are left, and after how many letters none was for the first time, or how many there were.
#[tactic(auto, unfolding(mulgreddi_answers::specs::Answers::follow_answer))]
pub fn followed(answer: Result<FollowCounts, Refusal>) -> Answer
    ensures { result ≡ follow_answer answer }
{
    mulgreddi_answers::answered(answer)
}
