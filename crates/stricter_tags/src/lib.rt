// Tags put on a table and taken off again: in free bits they tell cores and spared components, which rounds over pairs of cores go by.
// Numbers from which no accepting run goes on get no core, and take no part.

#![tactic(auto)]

ghost use Rattle.std.specs.Prelude.{◌≡◌, cond, ℕ, ◌+◌, ◌*◌, ◌/◌, ◌%◌, ◌^◌, ◌≤◌, ◌<◌, ltb, length, get_or};
ghost use Rattle.sets.specs.Tests.{Set, one};
ghost use Rattle.theory.specs.Automaton.{automaton};
ghost use Rattle.theory.specs.Rule.{Rule};
ghost use Rattle.theory.specs.TableComputed.{macrostates_from, transitions_from};
ghost use Rattle.build_spec.specs.Tables.{RuleTables};
ghost use Rattle.trim_spec.specs.Graph.{Inside};
ghost use Rattle.trim_spec.specs.Trimmed.{live_marks, is_live};
ghost use Rattle.slice_search.specs.LowParts.{low_parts};
ghost use Rattle.stricter_spec.specs.Tags.{TaggedCodes, TaggedMoves, ToldCodes, plain, untagged};
ghost use Rattle.stricter_laws.specs.Fill.{Filled};
ghost use Rattle.stricter_tags.specs.Buried.{Buried};

use build_spec::Shape;
use codes::{CODE_BITS, CODE_MASK};
use trim::marks::mark_live;

// ---- on

// The table of a rule with its tags.
fn tag_table(
    shape: Shape,
    opens: &[u8; 4096],
    parts: &[u8; 8],
    codes: &mut [u64],
    moves: &mut [u64],
)
    requires { (r : Rule) × (start : Set) × RuleTables r opens.now parts.now shape × (length codes.old ≤ 65536)
        × (codes.old ≡ macrostates_from r start) × (moves.old ≡ transitions_from r start) }
    ensures { (r : Rule) (start : Set) → RuleTables r opens.now parts.now shape
        → length codes.old ≤ 65536 → codes.old ≡ macrostates_from r start → moves.old ≡ transitions_from r start
        → TaggedCodes codes.old codes.new
        × TaggedMoves (automaton r) codes.old moves.old moves.new }
{
    stricter_tags_first::tag_codes(codes, shape.components as u64);
    stricter_tags_moves::tag_moves(moves, codes, shape, opens, parts);
}

// ---- numbers that take no part

// 1 for a code with a mark above its 48 bits, else 0.
fn is_marked(c: u64) -> u8
    ensures { result ≡ one (ltb 0 (c / 2 ^ 48)) }
{
    if c >> CODE_BITS == 0 {
        return 0;
    }
    1
}

// Notes for each code whether it has a mark.
fn note_marks(codes: &[u64], live: &mut [u8])
    requires { length codes.now ≤ length live.old }
    ensures { Filled (λ i. one (ltb 0 (get_or codes.now i 0 / 2 ^ 48))) 0 (length codes.now)
        live.old live.new }
{
    for (i, c) in codes.iter().enumerate() {
        live[i] = is_marked(*c);
    }
}

// Notes for each number of a table whether an accepting run goes on from it. The codes are as they were in the end.
fn note_live(codes: &mut [u64], moves: &[u64], live: &mut [u8])
    requires { Inside (length codes.old) moves.now × ((x : ℕ) → get_or codes.old x 0 < 2 ^ 48)
        × (length codes.old ≤ length live.old) }
    ensures codes_unchanged { codes.new ≡ codes.old }
    ensures filled { Filled (λ i. one (is_live (live_marks codes.old moves.now) i)) 0 (length codes.old)
        live.old live.new }
{
    mark_live(codes, moves);
    note_marks(codes, live);
    strip(codes, 48);
}

// A tagged code of a number that takes part as it is, of another with the number n of no core.
fn told(c: u64, live: u8, n: usize) -> u64
    requires { n < 65536 }
    ensures { result ≡ cond (ltb 0 live) c (c % 2 ^ 48 + 2 ^ 48 * n) }
{
    if live == 0 {
        return (c & CODE_MASK) + ((n as u64) << CODE_BITS);
    }
    c
}

// Numbers from which no accepting run goes on have no core from now on. A list of 65,536 has no number for that, and stays as it is.
fn bury(codes: &mut [u64], live: &[u8])
    requires { length codes.old ≤ length live.now }
    ensures { Buried codes.old live.now codes.new }
{
    let n = codes.len();
    if 65535 < n {
        return;
    }
    for (i, c) in codes.iter_mut().enumerate() {
        *c = told(*c, live[i], n);
    }
}

// ---- a table that takes part

// The table of a rule with its tags; numbers from which no accepting run goes on have no core. The bytes are lost.
pub fn tag_live(
    shape: Shape,
    opens: &[u8; 4096],
    parts: &[u8; 8],
    codes: &mut [u64],
    moves: &mut [u64],
    live: &mut [u8],
)
    requires { ((r : Rule) × (start : Set) × RuleTables r opens.now parts.now shape × (length codes.old ≤ 65536)
        × (codes.old ≡ macrostates_from r start) × (moves.old ≡ transitions_from r start)) × (length codes.old ≤ length live.old) }
    ensures { (r : Rule) (start : Set) → RuleTables r opens.now parts.now shape
        → length codes.old ≤ 65536 → codes.old ≡ macrostates_from r start → moves.old ≡ transitions_from r start
        → ToldCodes codes.old (live_marks codes.old moves.old) codes.new
        × TaggedMoves (automaton r) codes.old moves.old moves.new }
{
    note_live(codes, moves, live);
    tag_table(shape, opens, parts, codes, moves);
    bury(codes, live);
}

// ---- off

// The numbers without what stands above so many bits.
fn strip(list: &mut [u64], bits: u32)
    requires { bits < 64 }
    ensures { list.new ≡ low_parts (2 ^ bits) list.old }
{
    let mask = (1u64 << bits) - 1;
    for x in list.iter_mut() {
        *x &= mask;
    }
}

// The lists without tags.
pub fn untag(codes: &mut [u64], moves: &mut [u64])
    ensures codes_after { codes.new ≡ plain codes.old }
    ensures moves_after { moves.new ≡ untagged moves.old }
{
    strip(codes, 48);
    strip(moves, 40);
}
