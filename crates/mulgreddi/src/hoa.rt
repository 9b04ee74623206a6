// The C entries of the text of a table, by which a table goes to other tools and comes back.
ghost use Rattle.std.specs.Prelude.{◌≡◌, length, Result};
ghost use Rattle.refusals.specs.declared.Refusal.{Refusal};
ghost use Rattle.table_lent.specs.Lent.{in_bytes_lem};
ghost use Rattle.hoa_write.specs.Written.{hoa_written, hoa_after};
ghost use Rattle.hoa_spec.specs.declared.TableSizes.{TableSizes};
ghost use Rattle.hoa_spec.specs.Reading.{ReadBack};
ghost use Rattle.mulgreddi_answers.specs.Answers.{hoa_read_answer, written_answer};

use mulgreddi_answers::Answer;

// Writes the text of a table, codes and transitions in bytes, in the Hanoi Omega-Automata format to the start of text; its length.
#[unsafe(no_mangle)]
pub extern "C" fn mulgreddi_write_hoa(
    file: &[u8],
    codes: &[u8],
    transitions: &[u8],
    text: &mut [u8],
) -> Answer
    ensures value { result
        ≡ written_answer (hoa_written file.now (in_bytes_lem codes.now) (in_bytes_lem transitions.now)
        (length text.old)) }
    ensures text_after { text.new
        ≡ hoa_after file.now (in_bytes_lem codes.now) (in_bytes_lem transitions.now) text.old }
{
    mulgreddi_answers_rules::written(hoa_write::write_hoa(file, codes, transitions, text))
}

// Reads a text that mulgreddi_write_hoa writes, and no other: flags, a byte a macrostate, 1 for an initial one plus 2 for an accepting one,
// and packed transitions to the start of their slices; both numbers.
#[unsafe(no_mangle)]
pub extern "C" fn mulgreddi_read_hoa(
    text: &[u8],
    flags: &mut [u8],
    transitions: &mut [u64],
) -> Answer
    ensures { (a : Result TableSizes Refusal) × (result ≡ hoa_read_answer a)
        × ReadBack text.now flags.old transitions.old a flags.new transitions.new }
{
    mulgreddi_answers_tables::read_back(hoa_read::read_hoa(text, flags, transitions))
}
