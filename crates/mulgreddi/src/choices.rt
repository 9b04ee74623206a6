// The C entry of the judge that shows the choice, for callers who want to see why a word is accepted.
ghost use Rattle.std.specs.Prelude.{◌≡◌, Bool, Result};
ghost use Rattle.refusals.specs.declared.Refusal.{Refusal};
ghost use Rattle.judge_choices.specs.Judge.{JudgedChoices};
ghost use Rattle.mulgreddi_answers.specs.Answers.{verdict_answer};

use mulgreddi_answers::Answer;

// Whether the rule accepts the word; writes the masks of the states from which it accepts, a byte a place, and for each pair of a place
// and a state the number of the clause that carries its verdict, or 255.
#[unsafe(no_mangle)]
pub extern "C" fn mulgreddi_judge_choices(
    file: &[u8],
    lead: &[u8],
    cycle: &[u8],
    masks: &mut [u8],
    choices: &mut [u8],
) -> Answer
    ensures { (v : Result Bool Refusal)
        × (result ≡ verdict_answer v)
        × JudgedChoices file.now lead.now cycle.now
        masks.old masks.new choices.old choices.new v }
{
    mulgreddi_answers_words::verdict(judge_choices::judge_choices(
        file, lead, cycle, masks, choices,
    ))
}
