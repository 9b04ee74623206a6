// Tags of transitions: the number of the target's core, and the components that are spared. So one step back a transition serves all
// rounds.

#![tactic(auto)]

ghost use Rattle.std.specs.Prelude.{◌≡◌, ◌&&◌, ℕ, ◌+◌, ◌*◌, ◌/◌, ◌%◌, ◌^◌, ◌≤◌, ◌<◌, ltb, length};
ghost use mathlib.Core.List.{Memᴰ};
ghost use Rattle.sets.specs.Masks.{mask};
ghost use Rattle.sets.specs.Tests.{Set, one};
ghost use Rattle.theory.specs.Automaton.{automaton};
ghost use Rattle.theory.specs.Code.{rank_in};
ghost use Rattle.theory.specs.Macrostate.{Macrostate, Goes};
ghost use Rattle.theory.specs.Rule.{Rule};
ghost use Rattle.theory.specs.TableComputed.{macrostates_from, transitions_from};
ghost use Rattle.build_cores.specs.Parts.{vector_of};
ghost use Rattle.build_spec.specs.Keys.{Cored};
ghost use Rattle.build_spec.specs.Tables.{RuleTables};
ghost use Rattle.spare_spec.specs.SpareComputed.{spares};
ghost use Rattle.stricter_spec.specs.Tags.{TaggedCodes, tag_of, TaggedMoves};
ghost use Rattle.stricter_tags_moves.specs.Spared.{spared_by_lem, spared_in_lem};

use build_spec::Shape;
use codes::{ABOVE_MOVE, ABOVE_MOVE_CORE, CODE_BITS, letter_of, target_of};

// 1 for a component that is spared: it has no class, or its largest level, in the highest nibble of levels, is below their number.
fn spared_by(classes: u64, levels: u64) -> u64
    ensures { result ≡ one (spared_by_lem classes (levels / 2 ^ 60 % 16)) }
{
    if classes == 0 {
        return 1;
    }
    if levels >> 60 < classes {
        return 1;
    }
    0
}

// The mask of the components that are spared, of the levels of the step back from these ranks.
fn spared_in(ranks: u64, parts: &[u8; 8], components: usize, levels: &[u64; 8]) -> u64
    requires { components ≤ 8 }
    ensures { result ≡ mask components (spared_in_lem ranks parts.now levels.now) }
{
    let mut spared: u64 = 0;
    for k in 0..components {
        let classes = build_cores::class_count(ranks, parts[k]) as u64;
        spared += spared_by(classes, levels[k]) << k;
    }
    spared
}

// The mask of the components that a step over the letter into the core of these ranks spares.
fn spared_over(ranks: u64, letter: usize, shape: Shape, opens: &[u8; 4096], parts: &[u8; 8]) -> u64
    requires { ((r : Rule) × RuleTables r opens.now parts.now shape) × Cored parts.now shape.components ranks
        × (letter < shape.s) }
    ensures { (result < 256) × ((r : Rule) → RuleTables r opens.now parts.now shape
        → (c d : ℕ) → Macrostate (automaton r) d → vector_of (automaton r) (rank_in (automaton r) d) ≡ ranks → Goes (automaton r) c letter d
        → result ≡ mask 8 (λ K. ltb K (automaton r).components && spares (automaton r) letter c d K)) }
{
    let low = build_cores::lowest(ranks);
    let before = build_step_back::step_back(
        opens,
        letter,
        low[15],
        parts,
        shape.components,
        shape.accepting,
        &low,
    );
    let levels = before.levels;
    spared_in(ranks, parts, shape.components, &levels)
}

// A transition with its tags. The codes have theirs.
fn tag_move(t: u64, codes: &[u64], shape: Shape, opens: &[u8; 4096], parts: &[u8; 8]) -> u64
    requires { (r : Rule) × (start : Set) × RuleTables r opens.now parts.now shape × (length codes.now ≤ 65536)
        × TaggedCodes (macrostates_from r start) codes.now × Memᴰ t (transitions_from r start) }
    ensures { (r : Rule) (start : Set) → RuleTables r opens.now parts.now shape
        → length codes.now ≤ 65536 → TaggedCodes (macrostates_from r start) codes.now
        → Memᴰ t (transitions_from r start)
        → result ≡ t + 1099511627776 * tag_of (automaton r) (macrostates_from r start) t }
{
    let d = codes[target_of(t)];
    let spared = spared_over((d >> 8) & 0xffff_ffff, letter_of(t), shape, opens, parts);
    t + (d >> CODE_BITS) * ABOVE_MOVE + spared * ABOVE_MOVE_CORE
}

// All transitions with their tags.
pub fn tag_moves(
    moves: &mut [u64],
    codes: &[u64],
    shape: Shape,
    opens: &[u8; 4096],
    parts: &[u8; 8],
)
    requires { (r : Rule) × (start : Set) × RuleTables r opens.now parts.now shape × (length codes.now ≤ 65536)
        × TaggedCodes (macrostates_from r start) codes.now × (moves.old ≡ transitions_from r start) }
    ensures { (r : Rule) (start : Set) → RuleTables r opens.now parts.now shape
        → length codes.now ≤ 65536 → TaggedCodes (macrostates_from r start) codes.now
        → moves.old ≡ transitions_from r start
        → TaggedMoves (automaton r) (macrostates_from r start) moves.old moves.new }
{
    for t in moves.iter_mut() {
        *t = tag_move(*t, codes, shape, opens, parts);
    }
}
