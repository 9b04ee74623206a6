// The C entry of the judge of a sheet, for callers with many words on one rule.
ghost use Rattle.std.specs.Prelude.{◌≡◌, Result};
ghost use Rattle.refusals.specs.declared.Refusal.{Refusal};
ghost use Rattle.sheet_spec.specs.Computed.{SheetComputed};
ghost use Rattle.sheet_spec.specs.Judged.{SheetJudged};
ghost use Rattle.sheet_spec.specs.declared.Totals.{Totals};
ghost use Rattle.mulgreddi_answers.specs.Answers.{sheet_answer};

use mulgreddi_answers::Answer;

// Judges the words of a sheet, each as if alone: an answer byte and 64 mask bytes a word; how many words, and how many cycles were filled.
#[unsafe(no_mangle)]
pub extern "C" fn mulgreddi_judge_sheet(
    file: &[u8],
    sheet: &[u8],
    answers: &mut [u8],
    masks: &mut [u8],
) -> Answer
    ensures { (v : Result Totals Refusal) × (result ≡ sheet_answer v)
        × SheetJudged file.now sheet.now answers.old masks.old
        answers.new masks.new v
        × SheetComputed file.now sheet.now answers.old masks.old
        answers.new masks.new v }
{
    mulgreddi_answers_words::sheet(sheet_judge::judge_sheet(file, sheet, answers, masks))
}
