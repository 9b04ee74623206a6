// The reachable macrostates of a rule in a lent slice: the first list of the build. They are found as keys, in which a core is one number,
// and become codes in ascending order.
ghost use Rattle.std.specs.Prelude.{◌≡◌, ◌++◌, map, ◌≤◌, length, drop};
ghost use Rattle.theory.specs.Rule.{Rule};
ghost use Rattle.theory.specs.Automaton.{automaton};
ghost use Rattle.theory.specs.Macrostate.{Reachable};
ghost use Rattle.theory.specs.TableComputed.{macrostates_from};
ghost use Rattle.build_spec.specs.Keys.{code_of, KeyOf, start_of};
ghost use Rattle.build_spec.specs.Tables.{RuleTables};
ghost use Rattle.build_closure.specs.Closure.{keys_of, Gathered, Listed};

use crate::rounds::{close, firsts};
use build_spec::{Grow, Shape};
use codes::{CODE_MASK, CORE_BITS};

// The keys of the reachable macrostates, with links; full if they are more than the slice has room for.
pub fn reach(keys: &mut [u64], shape: Shape, opens: &[u8; 4096], parts: &[u8; 8]) -> Grow
    requires { ((r : Rule) × RuleTables r opens.now parts.now shape) × (length keys.old ≤ 65536) }
    ensures { (r : Rule)
        → RuleTables r opens.now parts.now shape
        → Gathered (KeyOf (Reachable (automaton r) r.s (start_of r shape.holds))) keys.old keys.new
        result.m result.full }
{
    let caps = build_cores::largest_ranks(parts, shape.components);
    let mut heads = [0u16; 16384];
    let mut last = [0u32; 256];
    let g = firsts(keys, &mut heads, &mut last, shape, parts, caps);
    if g.full {
        return g;
    }
    close(keys, &mut heads, &mut last, g.m, shape, opens, parts, caps)
}

// ---- codes

// The code of each of the first n keys, in its place; the links are taken off.
pub fn to_codes(keys: &mut [u64], n: usize)
    requires { n ≤ length keys.old }
    ensures { keys.new ≡ map code_of (keys_of n keys.old) ++ drop n keys.old }
{
    for key in keys[..n].iter_mut() {
        *key = ((*key & 0xff) << CORE_BITS) | ((*key & CODE_MASK) >> 8);
    }
}

// The codes of the reachable macrostates, ascending; full if they are more than the slice has room for.
pub fn reachable(codes: &mut [u64], shape: Shape, opens: &[u8; 4096], parts: &[u8; 8]) -> Grow
    requires { ((r : Rule) × RuleTables r opens.now parts.now shape) × (length codes.old ≤ 65536) }
    ensures { (r : Rule)
        → RuleTables r opens.now parts.now shape
        → Listed (macrostates_from r (start_of r shape.holds)) codes.old codes.new result.m result.full }
{
    let g = reach(codes, shape, opens, parts);
    if g.full {
        return g;
    }
    to_codes(codes, g.m);
    slice_sort::bytes::sort_first(codes, g.m);
    g
}
