// The keys that the cores with the same open states add to those listed. A set is skipped where nothing new leads to its cores.
ghost use Rattle.std.specs.Prelude.{◌≡◌, false, ℕ, ◌+◌, ◌*◌, ◌<◌, ◌≤◌, get_or};
ghost use Rattle.std.specs.Int.Bits.{bit_and, bit_xor};
ghost use Rattle.theory.specs.Rule.{Rule};
ghost use Rattle.theory.specs.Automaton.{automaton};
ghost use Rattle.build_cores.specs.Used.{caps_of};
ghost use Rattle.build_spec.specs.Chains.{Chained};
ghost use Rattle.build_spec.specs.Growth.{Grown};
ghost use Rattle.build_spec.specs.Keys.{LeadsAt};
ghost use Rattle.build_spec.specs.Reached.{ReachedKey, AllReached};
ghost use Rattle.build_spec.specs.Sets.{open_in, Spans};
ghost use Rattle.build_spec.specs.Tables.{Shaped, RuleTables};

use crate::letters::{last_of, set_before, visit, wide};
use build_spec::{Grow, Shape};

// The open states of each component.
fn open_parts(parts: &[u8; 8], x: u8) -> [u8; 8]
    ensures { (c : ℕ) → c < 8 → get_or result c 0 ≡ bit_and (get_or parts.now c 0) x }
{
    let mut those = *parts;
    for part in those.iter_mut() {
        *part &= x;
    }
    those
}

// The cores of a set have vectors base + d, each rank of d at most that of caps.
#[derive(Clone, Copy)]
struct Span {
    base: u64,
    caps: u64,
}

// The span of the cores with the open states x. A rank is at least 1, and at most the number of open states of its component.
fn span_of(parts: &[u8; 8], shape: Shape, x: u8) -> Span
    requires { ((r : Rule) × Shaped r parts.now shape)
        × (bit_and x (open_in (caps_of parts.now shape.components)) ≡ x) }
    ensures { Spans parts.now shape.components x result.base result.caps }
{
    let base = build_cores::nibbles_of(x) as u64;
    let those = open_parts(parts, x);
    let caps = build_cores::largest_ranks(&those, shape.components) - base;
    Span { base, caps }
}

// Whether a key from place `from` on has the set before some letter, of the set with the open states x.
fn is_fresh(opens: &[u8; 4096], last: &[u32; 256], from: usize, x: u8, shape: Shape) -> bool
    requires { shape.s ≤ 16 }
    ensures { result ≡ false
        → (a : ℕ)
        → a < shape.s
        → get_or last.now (bit_xor (get_or opens.now (a * 256 + x) 0) shape.accepting) 0 ≤ from }
{
    for a in 0..shape.s {
        let set = set_before(opens, a, x, shape.accepting);
        if from < wide(last_of(last, set)) {
            return true;
        }
    }
    false
}

// Adds the keys of the cores with the open states x that the n keys from place `from` on lead to; all has the states that can be open.
pub fn visit_set(
    keys: &mut [u64],
    heads: &mut [u16; 16384],
    last: &mut [u32; 256],
    n: usize,
    from: usize,
    x: u8,
    all: u8,
    shape: Shape,
    opens: &[u8; 4096],
    parts: &[u8; 8],
) -> Grow
    requires { ((r : Rule) × RuleTables r opens.now parts.now shape × AllReached r parts.now shape keys.old n)
        × Chained keys.old heads.old last.old n
        × (from < n)
        × (all ≡ open_in (caps_of parts.now shape.components)) }
    ensures { (r : Rule)
        → RuleTables r opens.now parts.now shape
        → AllReached r parts.now shape keys.old n
        → Grown
        (λ y. (v : ℕ)
        × (open_in v ≡ x)
        × LeadsAt (automaton r) parts.now shape.components shape.s from n keys.old v y)
        (ReachedKey r parts.now shape) keys.old n keys.new heads.new last.new
        result.m result.full }
{
    let mut g = Grow { m: n, full: false };
    if x & all != x {
        return g;
    }
    if !is_fresh(opens, last, from, x, shape) {
        return g;
    }
    let span = span_of(parts, shape, x);
    let base = span.base;
    let caps = span.caps;
    let mut d = 0;
    loop {
        g = visit(keys, heads, last, g.m, from, base + d, shape, opens, parts);
        if g.full {
            return g;
        }
        if d == caps {
            return g;
        }
        d = build_cores::next_ranks(d, caps);
    }
}
