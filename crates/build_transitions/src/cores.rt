// The transitions between listed keys, core by core: one step back over a letter serves all keys of a core. So each core is treated once,
// at its lowest place.
ghost use Rattle.std.specs.Prelude.{◌<◌, ◌≤◌, length};
ghost use Rattle.theory.specs.Rule.{Rule};
ghost use Rattle.theory.specs.Automaton.{automaton};
ghost use Rattle.build_spec.specs.Chains.{Chained};
ghost use Rattle.build_spec.specs.Keys.{Cored};
ghost use Rattle.build_spec.specs.Reached.{AllReached};
ghost use Rattle.build_spec.specs.Tables.{RuleTables, Lowest};
ghost use Rattle.build_spec.specs.Emission.{Emitted, Over, Into, vector_at, Done};

use crate::sources::emit_sources;
use build_spec::{Grow, Shape};
use build_visit::letters::{CoreStep, LetterBack, last_of, set_before, step_over};
use codes::CODE_MASK;

// Writes the transitions over one letter into the core of these ranks. The letter is skipped where no key of the earlier set is listed.
fn emit_letter(
    out: &mut [u64],
    m: usize,
    keys: &[u64],
    heads: &[u16; 16384],
    last: &[u32; 256],
    at: LetterBack,
    low: &[u8; 16],
    shape: Shape,
    opens: &[u8; 4096],
    parts: &[u8; 8],
) -> Grow
    requires { ((r : Rule) × RuleTables r opens.now parts.now shape × AllReached r parts.now shape keys.now (length keys.now))
        × Chained keys.now heads.now last.now (length keys.now)
        × (0 < length keys.now)
        × Cored parts.now shape.components at.ranks
        × Lowest at.ranks low.now
        × (at.letter < shape.s)
        × (m ≤ length out.old) }
    ensures { (r : Rule)
        → RuleTables r opens.now parts.now shape
        → AllReached r parts.now shape keys.now (length keys.now)
        → Emitted (Over (automaton r) keys.now (length keys.now) at.ranks at.letter) out.old m
        out.new result.m result.full }
{
    let set = set_before(opens, at.letter, low[15], shape.accepting);
    if last_of(last, set) == 0 {
        return Grow { m, full: false };
    }
    let cores = step_over(at, low, shape, opens, parts);
    let levels = cores.levels;
    let step = CoreStep {
        earlier: cores.earlier,
        core: cores.core,
        ranks: at.ranks,
        letter: at.letter,
        components: shape.components,
    };
    emit_sources(out, m, keys, heads, last, step, parts, &levels)
}

// Writes the transitions into the core of the key at place j.
fn emit_core(
    out: &mut [u64],
    m: usize,
    keys: &[u64],
    heads: &[u16; 16384],
    last: &[u32; 256],
    j: usize,
    shape: Shape,
    opens: &[u8; 4096],
    parts: &[u8; 8],
) -> Grow
    requires { ((r : Rule) × RuleTables r opens.now parts.now shape × AllReached r parts.now shape keys.now (length keys.now))
        × Chained keys.now heads.now last.now (length keys.now)
        × (j < length keys.now)
        × (m ≤ length out.old) }
    ensures { (r : Rule)
        → RuleTables r opens.now parts.now shape
        → AllReached r parts.now shape keys.now (length keys.now)
        → Emitted (Into (automaton r) shape.s keys.now (length keys.now) (vector_at keys.now j))
        out.old m out.new result.m result.full }
{
    let ranks = (keys[j] & CODE_MASK) >> 16;
    let low = build_cores::lowest(ranks);
    let mut g = Grow { m, full: false };
    for a in 0..shape.s {
        let at = LetterBack { ranks, letter: a };
        g = emit_letter(out, g.m, keys, heads, last, at, &low, shape, opens, parts);
        if g.full {
            return g;
        }
    }
    g
}

// Writes the transitions between all keys.
pub fn emit(
    out: &mut [u64],
    keys: &[u64],
    heads: &[u16; 16384],
    last: &[u32; 256],
    shape: Shape,
    opens: &[u8; 4096],
    parts: &[u8; 8],
) -> Grow
    requires { ((r : Rule) × RuleTables r opens.now parts.now shape × AllReached r parts.now shape keys.now (length keys.now))
        × Chained keys.now heads.now last.now (length keys.now) }
    ensures { (r : Rule)
        → RuleTables r opens.now parts.now shape
        → AllReached r parts.now shape keys.now (length keys.now)
        → Emitted (Done (automaton r) shape.s keys.now (length keys.now) (length keys.now))
        out.old 0 out.new result.m result.full }
{
    let mut g = Grow { m: 0, full: false };
    for j in 0..keys.len() {
        if build_chains::core_before(keys, heads, last, keys.len(), j) {
            continue;
        }
        g = emit_core(out, g.m, keys, heads, last, j, shape, opens, parts);
        if g.full {
            return g;
        }
    }
    g
}
