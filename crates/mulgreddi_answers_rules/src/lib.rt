// The answers on rules as the three numbers of the C interface: checked, written and tidied files, mixed loops, sameness.

#![tactic(auto)]

ghost use Rattle.std.specs.Prelude.{◌≡◌};
ghost use Rattle.mulgreddi_answers.specs.Answers.{served_as, written_answer, tidied_answer, loop_answer, same_rules_answer};

use mulgreddi_answers::Answer;
use refusals::Refusal;

// The length of the preface, and the number of name bytes.
pub fn checked(at: usize, names: usize) -> Answer
    ensures { result ≡ served_as at names }
{
    mulgreddi_answers::served(at as u64, names as u64)
}

// The length of the written file.
#[tactic(auto, unfolding(mulgreddi_answers::specs::Answers::written_answer))]
pub fn written(length: Result<usize, Refusal>) -> Answer
    ensures { result ≡ written_answer length }
{
    mulgreddi_answers::answered(length)
}

// The length of the tidied file.
#[tactic(auto, unfolding(mulgreddi_answers::specs::Answers::tidied_answer))]
pub fn tidied(tidy_length: Result<usize, Refusal>) -> Answer
    ensures { result ≡ tidied_answer tidy_length }
{
    mulgreddi_answers::answered(tidy_length)
}

// The number of states of the mixed loop, 0 for none.
#[tactic(auto, unfolding(mulgreddi_answers::specs::Answers::loop_answer))]
pub fn reported(answer: Result<Option<usize>, Refusal>) -> Answer
    ensures { result ≡ loop_answer answer }
{
    mulgreddi_answers::answered(answer.map(|count| count.unwrap_or(0)))
}

// 1 same, 0 not.
#[tactic(auto, unfolding(mulgreddi_answers::specs::Answers::same_rules_answer))]
pub fn same_rules(same: Result<bool, Refusal>) -> Answer
    ensures { result ≡ same_rules_answer same }
{
    mulgreddi_answers::answered(same)
}
