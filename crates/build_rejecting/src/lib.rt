// The build of the words that a rule rejects: macrostates and steps are those of the rule itself, and runs begin where the set lacks the
// initial state. So no rule has to be complemented.

#![tactic(auto)]

ghost use Rattle.std.specs.Prelude.{◌≡◌};
ghost use Rattle.build_rejecting.specs.Entry.{RejectingBuilt};

use build::Counts;
use refusals::Refusal;

// Writes the codes of the macrostates reached from where the set lacks the initial state and the transitions of a file's rule, both
// ascending, at the start of the slices, and zeros after them; answers both counts. Rows and refusals are those of the build, 17 and 18
// by this table.
pub fn build_rejecting(
    file: &[u8],
    codes: &mut [u64],
    transitions: &mut [u64],
) -> Result<Counts, Refusal>
    ensures { RejectingBuilt file.now codes.old transitions.old result
        codes.new transitions.new }
{
    build::build_file(file, false, codes, transitions)
}
