// The transitions between the listed codes, ascending. While they are found the codes are keys with chains through them, so that the number
// of a macrostate is found along a chain.
ghost use Rattle.std.specs.Prelude.{◌≡◌, ℕ, ◌^◌, ◌<◌, ◌≤◌, length, get_or};
ghost use Rattle.sets.specs.Lists.{Ascending};
ghost use Rattle.theory.specs.Rule.{Rule};
ghost use Rattle.theory.specs.TableComputed.{macrostates_from, transitions_from};
ghost use Rattle.build_spec.specs.Chains.{key_at, Chained};
ghost use Rattle.build_spec.specs.Keys.{key_of, start_of};
ghost use Rattle.build_spec.specs.Tables.{RuleTables};
ghost use Rattle.build_closure.specs.Closure.{Listed};

use crate::cores::emit;
use build_spec::{Grow, Shape};
use codes::{CORE_BITS, CORE_MASK};

// Turns the codes into keys, each in its place, with chains through them.
fn chain(codes: &mut [u64], heads: &mut [u16; 16384], last: &mut [u32; 256])
    requires { Chained codes.old heads.old last.old 0
        × Ascending codes.old
        × ((p : ℕ) → p < length codes.old → get_or codes.old p 0 < 2 ^ 48) }
    ensures { Chained codes.new heads.new last.new (length codes.old)
        × ((p : ℕ) → p < length codes.old → key_at codes.new p ≡ key_of (get_or codes.old p 0)) }
{
    for p in 0..codes.len() {
        let code = codes[p];
        build_chains::put(
            codes,
            heads,
            last,
            p,
            ((code & CORE_MASK) << 8) | (code >> CORE_BITS),
        );
    }
}

// Fills the start of out with the transitions between the codes, ascending; they stay as they are. It is full if there are more than room.
pub fn transitions(
    out: &mut [u64],
    codes: &mut [u64],
    shape: Shape,
    opens: &[u8; 4096],
    parts: &[u8; 8],
) -> Grow
    requires { ((r : Rule)
        × RuleTables r opens.now parts.now shape
        × (codes.old ≡ macrostates_from r (start_of r shape.holds)))
        × (length codes.old ≤ 65536) }
    ensures { (codes.new ≡ codes.old)
        × ((r : Rule)
        → RuleTables r opens.now parts.now shape
        → codes.old ≡ macrostates_from r (start_of r shape.holds)
        → Listed (transitions_from r (start_of r shape.holds)) out.old out.new result.m result.full) }
{
    let n = codes.len();
    let mut heads = [0u16; 16384];
    let mut last = [0u32; 256];
    chain(codes, &mut heads, &mut last);
    let g = emit(out, codes, &heads, &last, shape, opens, parts);
    build_closure::reach::to_codes(codes, n);
    if g.full {
        return g;
    }
    slice_sort::bytes::sort_first(out, g.m);
    g
}
