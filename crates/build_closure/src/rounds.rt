// Rounds over all cores until no key is new. Places are the clock: a round uses the keys that the round before added.
ghost use Rattle.std.specs.Prelude.{◌≡◌, ℕ, ◌<◌};
ghost use Rattle.theory.specs.Rule.{Rule};
ghost use Rattle.theory.specs.Automaton.{automaton};
ghost use Rattle.build_cores.specs.Used.{caps_of};
ghost use Rattle.build_spec.specs.Chains.{Lists, Chained};
ghost use Rattle.build_spec.specs.Growth.{Grown, After};
ghost use Rattle.build_spec.specs.Keys.{KeyEdge, First};
ghost use Rattle.build_spec.specs.Reached.{ReachedKey, AllReached};
ghost use Rattle.build_spec.specs.Tables.{Shaped, RuleTables};
ghost use Rattle.build_closure.specs.Closure.{Gathered};

use build_spec::{Grow, Shape};

// ---- all cores

// The keys where a run may begin, at the start of the slice.
pub fn firsts(
    keys: &mut [u64],
    heads: &mut [u16; 16384],
    last: &mut [u32; 256],
    shape: Shape,
    parts: &[u8; 8],
    caps: u64,
) -> Grow
    requires { ((r : Rule) × Shaped r parts.now shape)
        × Chained keys.old heads.old last.old 0
        × (caps ≡ caps_of parts.now shape.components) }
    ensures { (r : Rule)
        → Shaped r parts.now shape
        → Grown (First r parts.now shape.components shape.holds)
        (First r parts.now shape.components shape.holds) keys.old 0 keys.new
        heads.new last.new result.m result.full }
{
    let mut g = Grow { m: 0, full: false };
    let mut t = 0;
    loop {
        g = build_visit::initial::visit_first(keys, heads, last, g.m, t, shape, parts);
        if g.full {
            return g;
        }
        if t == caps {
            return g;
        }
        t = build_cores::next_ranks(t, caps);
    }
}

// One round over all sets of open states: adds all keys that the n keys from place `from` on lead to.
fn round(
    keys: &mut [u64],
    heads: &mut [u16; 16384],
    last: &mut [u32; 256],
    n: usize,
    from: usize,
    shape: Shape,
    opens: &[u8; 4096],
    parts: &[u8; 8],
    caps: u64,
) -> Grow
    requires { ((r : Rule) × RuleTables r opens.now parts.now shape × AllReached r parts.now shape keys.old n)
        × Chained keys.old heads.old last.old n
        × (from < n)
        × (caps ≡ caps_of parts.now shape.components) }
    ensures { (r : Rule)
        → RuleTables r opens.now parts.now shape
        → AllReached r parts.now shape keys.old n
        → Grown
        (After from n keys.old (KeyEdge (automaton r) parts.now shape.components shape.s))
        (ReachedKey r parts.now shape) keys.old n keys.new heads.new last.new
        result.m result.full }
{
    let low = build_cores::lowest(caps);
    let all = low[15];
    let mut g = Grow { m: n, full: false };
    let mut x = 0u8;
    loop {
        g = build_visit::spans::visit_set(
            keys, heads, last, g.m, from, x, all, shape, opens, parts,
        );
        if g.full {
            return g;
        }
        if x == all {
            return g;
        }
        x += 1;
    }
}

// All keys that are reached from the first ones; full if they are more than the slice has room for.
pub fn close(
    keys: &mut [u64],
    heads: &mut [u16; 16384],
    last: &mut [u32; 256],
    first: usize,
    shape: Shape,
    opens: &[u8; 4096],
    parts: &[u8; 8],
    caps: u64,
) -> Grow
    requires { ((r : Rule) × RuleTables r opens.now parts.now shape × AllReached r parts.now shape keys.old first)
        × Chained keys.old heads.old last.old first
        × (caps ≡ caps_of parts.now shape.components) }
    ensures { (r : Rule)
        → RuleTables r opens.now parts.now shape
        → AllReached r parts.now shape keys.old first
        → ((y : ℕ) → First r parts.now shape.components shape.holds y → Lists keys.old first y)
        → Gathered (ReachedKey r parts.now shape) keys.old keys.new result.m result.full }
{
    let mut from = 0;
    let mut n = first;
    // A while: a round begins where the one before ended, until a round adds no key.
    while from < n {
        let g = round(keys, heads, last, n, from, shape, opens, parts, caps);
        if g.full {
            return g;
        }
        from = n;
        n = g.m;
    }
    Grow { m: n, full: false }
}
