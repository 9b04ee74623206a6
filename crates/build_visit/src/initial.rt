// The key of a core where a run may begin: with these the closure begins. The set holds the initial state there, or lacks it, so that one
// closure serves the words accepted and the words rejected.
ghost use Rattle.std.specs.Prelude.{◌≡◌, not, cond, ◌<◌, ltb};
ghost use Rattle.sets.specs.Masks.{bit, exclusive};
ghost use Rattle.theory.specs.Rule.{Rule};
ghost use Rattle.build_cores.specs.Vectors.{rank_at, Within};
ghost use Rattle.build_cores.specs.Used.{caps_of};
ghost use Rattle.build_spec.specs.Chains.{Chained};
ghost use Rattle.build_spec.specs.Growth.{Grown};
ghost use Rattle.build_spec.specs.Keys.{StartsAt};
ghost use Rattle.build_spec.specs.Tables.{Shaped};

use build_spec::{Grow, Shape};

// Whether the set of the core of these ranks holds state q.
fn in_set(ranks: u64, accepting: u8, q: usize) -> bool
    requires { q < 8 }
    ensures { result ≡ exclusive (bit accepting q) (ltb 0 (rank_at ranks q)) }
{
    let accepts = set_masks::contains(accepting, q as u32);
    if 0 < (ranks >> (4 * q)) & 15 {
        return !accepts;
    }
    accepts
}

// Whether the start condition lets a run begin in the core of these ranks.
fn begins(ranks: u64, shape: Shape) -> bool
    requires { shape.initial < 8 }
    ensures { result
        ≡ cond shape.holds (exclusive (bit shape.accepting shape.initial) (ltb 0 (rank_at ranks shape.initial)))
        (not (exclusive (bit shape.accepting shape.initial) (ltb 0 (rank_at ranks shape.initial)))) }
{
    let here = in_set(ranks, shape.accepting, shape.initial);
    if shape.holds {
        return here;
    }
    !here
}

// Adds the key with K 0 and k 0 of the core of these ranks, if a run may begin there; none if the ranks are no core's.
pub fn visit_first(
    keys: &mut [u64],
    heads: &mut [u16; 16384],
    last: &mut [u32; 256],
    n: usize,
    ranks: u64,
    shape: Shape,
    parts: &[u8; 8],
) -> Grow
    requires { ((r : Rule) × Shaped r parts.now shape)
        × Chained keys.old heads.old last.old n
        × Within 8 ranks (caps_of parts.now shape.components) }
    ensures { (r : Rule)
        → Shaped r parts.now shape
        → Grown (StartsAt r parts.now shape.components shape.holds ranks)
        (StartsAt r parts.now shape.components shape.holds ranks) keys.old n keys.new
        heads.new last.new result.m result.full }
{
    if !begins(ranks, shape) {
        return Grow { m: n, full: false };
    }
    if !build_cores::is_core(ranks, parts, shape.components) {
        return Grow { m: n, full: false };
    }
    let low = build_cores::lowest(ranks);
    let core = build_step_back::core_of(low[15], shape.accepting, ranks);
    build_chains::admit(keys, heads, last, n, core << 8)
}
