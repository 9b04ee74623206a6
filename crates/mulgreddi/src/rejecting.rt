// The C entry of the build of the words that a rule rejects, for callers who ask how a rule is broken.
ghost use Rattle.std.specs.Prelude.{◌≡◌, Result};
ghost use Rattle.refusals.specs.declared.Refusal.{Refusal};
ghost use Rattle.build.specs.declared.Counts.{Counts};
ghost use Rattle.build_rejecting.specs.Entry.{RejectingBuilt};
ghost use Rattle.mulgreddi_answers.specs.Answers.{built_answer};

use mulgreddi_answers::Answer;

// Builds the unambiguous automaton of the words that the rule of a file rejects: codes and transitions, both ascending, zeros after
// them; both counts.
#[unsafe(no_mangle)]
pub extern "C" fn mulgreddi_build_rejecting(
    file: &[u8],
    codes: &mut [u64],
    transitions: &mut [u64],
) -> Answer
    ensures { (b : Result Counts Refusal) × (result ≡ built_answer b)
        × RejectingBuilt file.now codes.old transitions.old b
        codes.new transitions.new }
{
    mulgreddi_answers_tables::built(build_rejecting::build_rejecting(file, codes, transitions))
}
