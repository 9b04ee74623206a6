// The transitions over one letter into one core: their sources are keys of the earlier core, so a walk along one chain meets all of them.
ghost use Rattle.std.specs.Prelude.{◌≡◌, ◌%◌, ◌^◌, ◌<◌, ◌≤◌, length};
ghost use Rattle.build_cores.specs.Onward.{onward_in};
ghost use Rattle.build_spec.specs.Chains.{key_at, Chained};
ghost use Rattle.build_spec.specs.Keys.{Paired};
ghost use Rattle.build_spec.specs.Emission.{Emitted, Crossing, Crossings};

use build_spec::Grow;
use build_visit::letters::CoreStep;
use codes::{CODE_BITS, CODE_MASK};

// Writes the transition from place p, if its key is one of the earlier core and what it goes on to is listed; full if there is no room.
fn emit_source(
    out: &mut [u64],
    m: usize,
    keys: &[u64],
    heads: &[u16; 16384],
    last: &[u32; 256],
    p: usize,
    key: u64,
    step: CoreStep,
    parts: &[u8; 8],
    levels: &[u64; 8],
) -> Grow
    requires { Chained keys.now heads.now last.now (length keys.now)
        × (p < length keys.now)
        × (key ≡ key_at keys.now p)
        × (key % 16 < step.components)
        × (step.components ≤ 8)
        × (step.core < 2 ^ 40)
        × (step.letter < 16)
        × (m ≤ length out.old) }
    ensures { Emitted
        (Crossing step.earlier step.core (onward_in step.ranks parts.now step.components levels.now)
        step.letter keys.now (length keys.now) p) out.old m out.new result.m result.full }
{
    if key >> 8 != step.earlier {
        return Grow { m, full: false };
    }
    let pair = build_cores::breakpoint::onward(
        key & 0xff,
        step.ranks,
        parts,
        step.components,
        levels,
    );
    let t = build_chains::find(keys, heads, last, keys.len(), (step.core << 8) | pair);
    if keys.len() <= t {
        return Grow { m, full: false };
    }
    if m == out.len() {
        return Grow { m, full: true };
    }
    out[m] = codes::pack_transition(p, step.letter, t);
    Grow {
        m: m + 1,
        full: false,
    }
}

// Writes the transitions over a letter into a core: the keys of the earlier core stand in one chain.
pub fn emit_sources(
    out: &mut [u64],
    m: usize,
    keys: &[u64],
    heads: &[u16; 16384],
    last: &[u32; 256],
    step: CoreStep,
    parts: &[u8; 8],
    levels: &[u64; 8],
) -> Grow
    requires { Chained keys.now heads.now last.now (length keys.now)
        × (0 < length keys.now)
        × Paired step.components keys.now (length keys.now)
        × (step.components ≤ 8)
        × (step.core < 2 ^ 40)
        × (step.earlier < 2 ^ 40)
        × (step.letter < 16)
        × (m ≤ length out.old) }
    ensures { Emitted
        (Crossings step.earlier step.core (onward_in step.ranks parts.now step.components levels.now)
        step.letter keys.now (length keys.now)) out.old m out.new result.m result.full }
{
    let mut g = Grow { m, full: false };
    let mut i = build_chains::chain_top(heads, step.earlier) as usize;
    loop {
        let x = keys[i];
        g = emit_source(
            out,
            g.m,
            keys,
            heads,
            last,
            i,
            x & CODE_MASK,
            step,
            parts,
            levels,
        );
        if g.full {
            return g;
        }
        if i == 0 {
            return g;
        }
        i = (x >> CODE_BITS) as usize;
    }
}
