// The answers on words as the three numbers of the C interface: sameness, tidy spellings, verdicts, sheets.

#![tactic(auto)]

ghost use Rattle.std.specs.Prelude.{◌≡◌};
ghost use Rattle.mulgreddi_answers.specs.Answers.{same_words_answer, tidy_word_answer, verdict_answer, sheet_answer};

use mulgreddi_answers::Answer;
use refusals::Refusal;
use sheet_spec::Totals;
use word_spelling::Lengths;

// 1 same, 0 not.
#[tactic(auto, unfolding(mulgreddi_answers::specs::Answers::same_words_answer))]
pub fn same_words(same: Result<bool, Refusal>) -> Answer
    ensures { result ≡ same_words_answer same }
{
    mulgreddi_answers::answered(same)
}

// The lengths of lead-in and cycle.
#[tactic(auto, unfolding(mulgreddi_answers::specs::Answers::tidy_word_answer))]
pub fn tidy_word(answer: Result<Lengths, Refusal>) -> Answer
    ensures { result ≡ tidy_word_answer answer }
{
    mulgreddi_answers::answered(answer)
}

// 1 yes, 0 no.
#[tactic(auto, unfolding(mulgreddi_answers::specs::Answers::verdict_answer))]
pub fn verdict(accepts: Result<bool, Refusal>) -> Answer
    ensures { result ≡ verdict_answer accepts }
{
    mulgreddi_answers::answered(accepts)
}

// The number of words on the sheet, and of cycles filled.
#[tactic(auto, unfolding(mulgreddi_answers::specs::Answers::sheet_answer))]
pub fn sheet(answer: Result<Totals, Refusal>) -> Answer
    ensures { result ≡ sheet_answer answer }
{
    mulgreddi_answers::answered(answer)
}
