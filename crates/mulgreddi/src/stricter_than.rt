// The C entry of the comparison of two rules. Its answer has eight numbers, since it tells a word and the sizes of two tables.
ghost use Rattle.std.specs.Prelude.{◌≡◌, Result};
ghost use Rattle.refusals.specs.declared.Refusal.{Refusal};
ghost use Rattle.stricter_entry_spec.specs.declared.Comparison.{Comparison};
ghost use Rattle.stricter_entry_spec.specs.Rows.{slices_of};
ghost use Rattle.stricter_entry_spec.specs.Compared.{Compared};
ghost use Rattle.mulgreddi_answers_stricter.specs.Answers.{comparison_answer};

use mulgreddi_answers_stricter::Numbers;

// Whether every word that rule a accepts is accepted by rule b, or a word that a accepts and b rejects, at the start of word; leaves a's
// table and that of the words that b rejects.
#[unsafe(no_mangle)]
pub extern "C" fn mulgreddi_stricter(
    a: &[u8],
    b: &[u8],
    acodes: &mut [u64],
    atransitions: &mut [u64],
    bcodes: &mut [u64],
    btransitions: &mut [u64],
    word: &mut [u8],
    scratch: &mut [u8],
) -> Numbers
    ensures { (answer : Result Comparison Refusal) × (result ≡ comparison_answer answer)
        × Compared a.now b.now
        (slices_of acodes.old atransitions.old bcodes.old btransitions.old
        word.old scratch.old) answer
        (slices_of acodes.new atransitions.new bcodes.new btransitions.new
        word.new scratch.new) }
{
    mulgreddi_answers_stricter::compared(stricter::stricter(
        a,
        b,
        acodes,
        atransitions,
        bcodes,
        btransitions,
        word,
        scratch,
    ))
}
