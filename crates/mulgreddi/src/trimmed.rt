// The C entry of the trimmed build, for callers who want the smaller table.
ghost use Rattle.std.specs.Prelude.{◌≡◌, Result};
ghost use Rattle.refusals.specs.declared.Refusal.{Refusal};
ghost use Rattle.build.specs.declared.Counts.{Counts};
ghost use Rattle.build_trimmed.specs.Entry.{TrimmedBuilt};
ghost use Rattle.mulgreddi_answers.specs.Answers.{built_answer};

use mulgreddi_answers::Answer;

// Builds the macrostates of a rule file that matter and the transitions between them, both ascending, zeros after them; both counts.
#[unsafe(no_mangle)]
pub extern "C" fn mulgreddi_build_trimmed(
    file: &[u8],
    codes: &mut [u64],
    transitions: &mut [u64],
) -> Answer
    ensures { (b : Result Counts Refusal) × (result ≡ built_answer b)
        × TrimmedBuilt file.now codes.old transitions.old b
        codes.new transitions.new }
{
    mulgreddi_answers_tables::built(build_trimmed::build_trimmed(file, codes, transitions))
}
