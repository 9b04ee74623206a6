// The C entry of the tidy tool, for a caller whose rule is refused by row 20.
ghost use Rattle.std.specs.Prelude.{◌≡◌, ℕ, Result};
ghost use Rattle.refusals.specs.declared.Refusal.{Refusal};
ghost use Rattle.file_tidy_spec.specs.Tidied.{TidyCalled};
ghost use Rattle.mulgreddi_answers.specs.Answers.{tidied_answer};

use mulgreddi_answers::Answer;

// Writes the file of the tidied rule of a file to the start of out; its length.
#[unsafe(no_mangle)]
pub extern "C" fn mulgreddi_tidy(file: &[u8], out: &mut [u8]) -> Answer
    ensures { (a : Result ℕ Refusal) × (result ≡ tidied_answer a) × TidyCalled file.now out.old out.new a }
{
    mulgreddi_answers_rules::tidied(file_tidy::tidy(file, out))
}
