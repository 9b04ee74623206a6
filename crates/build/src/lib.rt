// The build, which the library is for: it makes the unambiguous automaton of a rule, its reachable macrostates and the transitions between
// them, as two ascending lists in two lent slices.

#![tactic(auto)]

ghost use Rattle.std.specs.Prelude.{◌≡◌, true};
ghost use Rattle.theory.specs.Rule.{Rule};
ghost use Rattle.theory.specs.TableComputed.{macrostates_from, transitions_from};
ghost use Rattle.file_spec.specs.Reading.{read_of};
ghost use Rattle.build_spec.specs.Keys.{start_of};
ghost use Rattle.build_spec.specs.Tables.{RuleTables};
ghost use Rattle.build.specs.Built.{file_codes, file_moves};
ghost use Rattle.build.specs.Entry.{TableBuilt};
ghost use Rattle.build.specs.Filling.{Made, FileFilled};

use build_lists::{list_codes, list_transitions};
use build_spec::Shape;
use file_spec::Layout;
use refusals::Refusal;

// How many macrostates and transitions a built table has.
#[derive(Clone, Copy)]
pub struct Counts {
    pub macrostates: usize,
    pub transitions: usize,
}

// ---- the table

// Builds the table from tables of the rule; both slices are zero throughout if one has too little room.
fn build_table(
    shape: Shape,
    opens: &[u8; 4096],
    parts: &[u8; 8],
    codes: &mut [u64],
    out: &mut [u64],
) -> Result<Counts, Refusal>
    requires { (r : Rule) × RuleTables r opens.now parts.now shape }
    ensures { (r : Rule)
        → RuleTables r opens.now parts.now shape
        → Made (macrostates_from r (start_of r shape.holds)) (transitions_from r (start_of r shape.holds)) codes.old
        out.old result codes.new out.new }
{
    let g = list_codes(codes, shape, opens, parts);
    if g.full {
        slice_search::zero_all(codes);
        slice_search::zero_all(out);
        return Err(Refusal::MacrostateRoom);
    }
    let n = g.m;
    let e = list_transitions(out, codes, n, shape, opens, parts);
    if e.full {
        slice_search::zero_all(codes);
        slice_search::zero_all(out);
        return Err(Refusal::TransitionRoom);
    }
    Ok(Counts {
        macrostates: n,
        transitions: e.m,
    })
}

// ---- files

// Builds the table of the rule of an accepted file. A run begins where the set holds the initial state, or, if `holds` is false, where it
// lacks it. 17 or 18 if a slice has too little room; both are zero throughout then.
pub fn build_accepted(
    file: &[u8],
    l: Layout,
    holds: bool,
    codes: &mut [u64],
    transitions: &mut [u64],
) -> Result<Counts, Refusal>
    requires { read_of file.now ≡ Ok l }
    ensures { Made (file_codes (λ r. start_of r holds) file.now) (file_moves (λ r. start_of r holds) file.now)
        codes.old transitions.old result codes.new transitions.new }
{
    let p = build_lists::prepare::prepare(file, l, holds);
    let parts = p.parts;
    let opens = build_lists::prepare::file_opens(file, l);
    build_table(p.shape, &opens, &parts, codes, transitions)
}

// Builds the table of a file's rule, as `build_accepted` does. If a row refuses, it answers the first that does: a rule's row leaves
// the slices as they are.
pub fn build_file(
    file: &[u8],
    holds: bool,
    codes: &mut [u64],
    transitions: &mut [u64],
) -> Result<Counts, Refusal>
    ensures { FileFilled (λ r. start_of r holds) file.now codes.old transitions.old result
        codes.new transitions.new }
{
    let l = file_read::read_rule(file)?;
    build_accepted(file, l, holds, codes, transitions)
}

// Writes the codes of the reachable macrostates and the transitions of a file's rule, both ascending, at the start of the slices, and
// zeros after them; answers both counts. If a row refuses, it answers the first that does: a rule's row leaves the slices as they are,
// 17 and 18 set both to zero throughout.
pub fn build(file: &[u8], codes: &mut [u64], transitions: &mut [u64]) -> Result<Counts, Refusal>
    ensures { TableBuilt file.now codes.old transitions.old result
        codes.new transitions.new }
{
    build_file(file, true, codes, transitions)
}
