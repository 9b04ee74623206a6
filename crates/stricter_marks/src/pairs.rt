// Sorts out the pairs of numbers of two tagged tables from which both can accept. Acceptance is a matter of cores, so it is decided on the
// pairs of their cores.
ghost use Rattle.std.specs.Prelude.{◌≡◌, true, false, not, ℕ, ◌≤◌, ◌<◌, length};
ghost use mathlib.Core.List.{Memᴰ};
ghost use Rattle.sets.specs.Masks.{bit};
ghost use Rattle.stricter_laws.specs.Tests.{starts_in};
ghost use Rattle.stricter_spec.specs.Tags.{row_of_lem};
ghost use Rattle.stricter_spec.specs.Steps.{CoresFit, stands_in};
ghost use Rattle.stricter_marks.specs.Rows.{Standing};
ghost use Rattle.stricter_marks.specs.Sorted.{CoresSorted};

use crate::spread::{place_cores, spread_marks};
use codes::CODE_BITS;
use stricter_cores::narrow;
use stricter_starts::first_start;

// Whether no number of a tagged table stands for a core.
fn none_stands(codes: &[u64]) -> bool
    ensures { result ≡ true → (i : ℕ) → i < length codes.now → stands_in codes.now i ≡ false }
{
    codes
        .iter()
        .enumerate()
        .all(|(i, c)| (*c >> CODE_BITS) as usize != i)
}

// Sorts out the pairs of cores of two tagged tables. Where a start pair is left, it gives each pair of numbers the mark of the pair of its
// cores, and answers the first start pair; else the number of pairs.
pub fn mark_pairs(
    acodes: &[u64],
    left: &[u64],
    acount: usize,
    ainitial: u32,
    bcodes: &[u64],
    right: &[u64],
    bcount: usize,
    binitial: u32,
    marks: &mut [u8],
) -> usize
    requires cores_fit { CoresFit (length acodes.now) (length bcodes.now) left.now right.now marks.old
        × Standing acodes.now × Standing bcodes.now × (acount ≤ 8) × (bcount ≤ 8) × (ainitial < 8) × (binitial < 8) }
    requires by_index { (u : ℕ) → Memᴰ u right.now → row_of_lem u < length bcodes.now }
    ensures { CoresSorted acodes.now left.now acount bcodes.now right.now bcount
        (starts_in acodes.now bcodes.now (λ c. bit c ainitial) (λ c. not (bit c binitial))) marks.new result }
{
    if none_stands(acodes) {
        return marks.len();
    }
    if none_stands(bcodes) {
        return marks.len();
    }
    place_cores(acodes, bcodes, marks);
    narrow(acodes, left, acount, bcodes.len(), right, bcount, marks);
    let start = first_start(acodes, bcodes, ainitial, binitial, marks);
    if marks.len() <= start {
        return start;
    }
    spread_marks(acodes, bcodes, marks);
    start
}
