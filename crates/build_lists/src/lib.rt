// The tables of a rule by which the build and the comparison go, made once, and the two lists of the build, each in a lent slice with zeros
// after it. A list tells whether it has room: the build answers 17 or 18 by it.

#![tactic(auto)]

pub mod prepare;

ghost use Rattle.std.specs.Prelude.{◌≡◌};
ghost use Rattle.theory.specs.Rule.{Rule};
ghost use Rattle.theory.specs.TableComputed.{macrostates_from, transitions_from};
ghost use Rattle.build_spec.specs.Keys.{start_of};
ghost use Rattle.build_spec.specs.Tables.{RuleTables};
ghost use Rattle.build_lists.specs.Room.{room_of_lem};
ghost use Rattle.build_lists.specs.Lists.{Padded, Codes};

use build_spec::{Grow, Shape};

// The room of a slice: its length, but at most the cap.
fn room_of(cap: usize, len: usize) -> usize
    ensures { result ≡ room_of_lem cap len }
{
    if len < cap {
        return len;
    }
    cap
}

// Fills the slice with the codes of the reachable macrostates, ascending, and zeros. It is full if there are more of them than room.
pub fn list_codes(codes: &mut [u64], shape: Shape, opens: &[u8; 4096], parts: &[u8; 8]) -> Grow
    requires { (r : Rule) × RuleTables r opens.now parts.now shape }
    ensures { (r : Rule)
        → RuleTables r opens.now parts.now shape
        → Padded 65536 (macrostates_from r (start_of r shape.holds)) codes.old codes.new result.m result.full }
{
    let room = room_of(65536, codes.len());
    let g = build_closure::reach::reachable(&mut codes[..room], shape, opens, parts);
    if g.full {
        return g;
    }
    let m = g.m;
    slice_search::zero_from(codes, m);
    Grow { m, full: false }
}

// Fills the slice with the transitions between the first n codes, ascending, and zeros; the codes stay as they are. It is full if there are
// more of them than room.
pub fn list_transitions(
    out: &mut [u64],
    codes: &mut [u64],
    n: usize,
    shape: Shape,
    opens: &[u8; 4096],
    parts: &[u8; 8],
) -> Grow
    requires { (r : Rule) × RuleTables r opens.now parts.now shape × Codes r shape.holds codes.old n }
    ensures { (codes.new ≡ codes.old)
        × ((r : Rule)
        → RuleTables r opens.now parts.now shape
        → Codes r shape.holds codes.old n
        → Padded 1048576 (transitions_from r (start_of r shape.holds)) out.old out.new result.m result.full) }
{
    let room = room_of(1048576, out.len());
    let g = build_transitions::transitions::transitions(
        &mut out[..room],
        &mut codes[..n],
        shape,
        opens,
        parts,
    );
    if g.full {
        return g;
    }
    let m = g.m;
    slice_search::zero_from(out, m);
    Grow { m, full: false }
}
