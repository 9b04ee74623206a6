// The trimmed build: a table with the same accepting runs, in which only the reachable macrostates that matter are left, in two lent slices
// and no memory beside them.

#![tactic(auto)]

ghost use Rattle.std.specs.Prelude.{◌≡◌};
ghost use Rattle.build_trimmed.specs.Trimming.{Trimmable, Trimming};
ghost use Rattle.build_trimmed.specs.Entry.{TrimmedBuilt};

use build::Counts;
use refusals::Refusal;
use trim::marks::mark_live;
use trim::number::{compact, count_left, number, rewrite_all};

// Trims a table in place: what matters stays at the front of both slices, by new numbers, and zeros come behind.
pub fn trim(codes: &mut [u64], transitions: &mut [u64]) -> Counts
    requires { Trimmable codes.old transitions.old }
    ensures { Trimming codes.old transitions.old result codes.new transitions.new }
{
    mark_live(codes, transitions);
    let left = count_left(codes);
    if left == codes.len() {
        let macrostates = compact(codes);
        return Counts {
            macrostates,
            transitions: transitions.len(),
        };
    }
    number(codes);
    let kept = rewrite_all(codes, transitions);
    let macrostates = compact(codes);
    Counts {
        macrostates,
        transitions: kept,
    }
}

// Writes the codes of the reachable macrostates that matter and the transitions between them, both ascending, at the start of the
// slices, and zeros after them; answers both counts. Rows and refusals are those of the build: 17 and 18 count the reachable table.
pub fn build_trimmed(
    file: &[u8],
    codes: &mut [u64],
    transitions: &mut [u64],
) -> Result<Counts, Refusal>
    ensures { TrimmedBuilt file.now codes.old transitions.old result
        codes.new transitions.new }
{
    let n = build::build(file, codes, transitions)?;
    let m = n.macrostates;
    let t = n.transitions;
    Ok(trim(&mut codes[..m], &mut transitions[..t]))
}
