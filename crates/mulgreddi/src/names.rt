// The C entry of the writer with names for letters, for callers whose listings should show them.
ghost use Rattle.std.specs.Prelude.{◌≡◌, length};
ghost use Rattle.file_write_spec.specs.Written.{head_from, written_of, slice_after};
ghost use Rattle.mulgreddi_answers.specs.Answers.{written_answer};

use mulgreddi_answers::Answer;

// Writes the file of a rule with names, none or 8 bytes a letter, to the start of out; its length.
#[unsafe(no_mangle)]
pub extern "C" fn mulgreddi_write_named(
    n: u32,
    s: u32,
    initial: u32,
    accepting: u32,
    counts: &[u8],
    clauses: &[u8],
    names: &[u8],
    out: &mut [u8],
) -> Answer
    ensures value { result
        ≡ written_answer
        (written_of (head_from n s initial accepting) counts.now clauses.now names.now
        (length out.old)) }
    ensures out_after { out.new
        ≡ slice_after (head_from n s initial accepting) counts.now clauses.now names.now
        out.old }
{
    mulgreddi_answers_rules::written(file_write::writer::write_named(
        n, s, initial, accepting, counts, clauses, names, out,
    ))
}
