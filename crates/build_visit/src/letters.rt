// The keys that one core adds to those listed: a step back over each letter gives the earlier core, and the listed keys of that core go on
// to those of this one.
ghost use Rattle.std.specs.Prelude.{◌≡◌, ◌+◌, ◌*◌, ◌%◌, ◌^◌, ◌<◌, ◌≤◌, get_or};
ghost use Rattle.std.specs.Int.Bits.{bit_xor};
ghost use Rattle.theory.specs.Rule.{Rule};
ghost use Rattle.theory.specs.Automaton.{automaton};
ghost use Rattle.build_cores.specs.Vectors.{Within};
ghost use Rattle.build_cores.specs.Used.{caps_of};
ghost use Rattle.build_cores.specs.Onward.{onward_in};
ghost use Rattle.build_spec.specs.Chains.{Chained};
ghost use Rattle.build_spec.specs.Growth.{Grown, After};
ghost use Rattle.build_spec.specs.Keys.{Paired, Cored, Moved, LeadsOver, LeadsAt, Stepping};
ghost use Rattle.build_spec.specs.Reached.{ReachedKey, AllReached};
ghost use Rattle.build_spec.specs.Tables.{RuleTables, Lowest};

use build_spec::{Grow, Shape};
use codes::{CODE_BITS, CODE_MASK};

// A step over a letter from the earlier core to the core of these ranks. Cores are given by their numbers.
#[derive(Clone, Copy)]
pub struct CoreStep {
    pub earlier: u64,
    pub core: u64,
    pub ranks: u64,
    pub letter: usize,
    pub components: usize,
}

// Adds the key of a core that a key leads to over a letter, if it is one of the earlier core.
fn move_key(
    keys: &mut [u64],
    heads: &mut [u16; 16384],
    last: &mut [u32; 256],
    n: usize,
    key: u64,
    step: CoreStep,
    parts: &[u8; 8],
    levels: &[u64; 8],
) -> Grow
    requires { Chained keys.old heads.old last.old n
        × (key % 16 < step.components)
        × (step.components ≤ 8)
        × (step.core < 2 ^ 40) }
    ensures { Grown
        (Moved step.earlier step.core (onward_in step.ranks parts.now step.components levels.now) key)
        (Moved step.earlier step.core (onward_in step.ranks parts.now step.components levels.now) key)
        keys.old n keys.new heads.new last.new result.m result.full }
{
    if key >> 8 != step.earlier {
        return Grow { m: n, full: false };
    }
    let pair = build_cores::breakpoint::onward(
        key & 0xff,
        step.ranks,
        parts,
        step.components,
        levels,
    );
    build_chains::admit(keys, heads, last, n, (step.core << 8) | pair)
}

// Adds the keys of a core that the n keys from place `from` on lead to over a letter: the keys of the earlier core stand in one chain.
fn move_keys(
    keys: &mut [u64],
    heads: &mut [u16; 16384],
    last: &mut [u32; 256],
    n: usize,
    from: usize,
    step: CoreStep,
    parts: &[u8; 8],
    levels: &[u64; 8],
) -> Grow
    requires { Chained keys.old heads.old last.old n
        × (from < n)
        × Paired step.components keys.old n
        × (step.components ≤ 8)
        × (step.core < 2 ^ 40)
        × (step.earlier < 2 ^ 40) }
    ensures { Grown
        (After from n keys.old
        (Moved step.earlier step.core (onward_in step.ranks parts.now step.components levels.now)))
        (After 0 n keys.old
        (Moved step.earlier step.core (onward_in step.ranks parts.now step.components levels.now)))
        keys.old n keys.new heads.new last.new result.m result.full }
{
    let mut g = Grow { m: n, full: false };
    let mut i = build_chains::chain_top(heads, step.earlier) as usize;
    // A while: the chain leads from each place to the next, down to those before `from`.
    while from <= i {
        let x = keys[i];
        g = move_key(keys, heads, last, g.m, x & CODE_MASK, step, parts, levels);
        if g.full {
            return g;
        }
        if i == 0 {
            return g;
        }
        i = (x >> CODE_BITS) as usize;
    }
    g
}

// The set before a letter, of the set with these open states.
pub fn set_before(opens: &[u8; 4096], letter: usize, opened: u8, accepting: u8) -> u8
    requires { letter < 16 }
    ensures { result ≡ bit_xor (get_or opens.now (letter * 256 + opened) 0) accepting }
{
    opens[letter * 256 + opened as usize] ^ accepting
}

// The number of the core with these open states and ranks before a letter.
pub fn earlier_core(opens: &[u8; 4096], letter: usize, opened: u8, accepting: u8, ranks: u64) -> u64
    requires { (letter < 16) × (ranks < 2 ^ 32) }
    ensures { result ≡ ranks * 2 ^ 8 + bit_xor (get_or opens.now (letter * 256 + opened) 0) accepting }
{
    build_step_back::core_of(opens[letter * 256 + opened as usize], accepting, ranks)
}

// The place after the last key of a set.
pub fn last_of(last: &[u32; 256], set: u8) -> u32
    ensures { result ≡ get_or last.now set 0 }
{
    last[set as usize]
}

// A number of 32 bits in 64.
pub fn wide(x: u32) -> usize
    ensures { result ≡ x }
{
    x as usize
}

// A letter, to step back over it from the core of these ranks.
#[derive(Clone, Copy)]
pub struct LetterBack {
    pub ranks: u64,
    pub letter: usize,
}

// The numbers of the earlier core and of the core, and the levels with which pairs go on from one to the other.
#[derive(Clone, Copy)]
pub struct StepCores {
    pub earlier: u64,
    pub core: u64,
    pub levels: [u64; 8],
}

// The step back over a letter from a core.
pub fn step_over(
    at: LetterBack,
    low: &[u8; 16],
    shape: Shape,
    opens: &[u8; 4096],
    parts: &[u8; 8],
) -> StepCores
    requires { ((r : Rule) × RuleTables r opens.now parts.now shape)
        × Cored parts.now shape.components at.ranks
        × Lowest at.ranks low.now
        × (at.letter < shape.s) }
    ensures { (r : Rule)
        → RuleTables r opens.now parts.now shape
        → Stepping (automaton r) parts.now shape.components at.ranks at.letter result.earlier result.core result.levels }
{
    let opened = low[15];
    let before = build_step_back::step_back(
        opens,
        at.letter,
        opened,
        parts,
        shape.components,
        shape.accepting,
        low,
    );
    let earlier = earlier_core(opens, at.letter, opened, shape.accepting, before.ranks);
    let core = build_step_back::core_of(opened, shape.accepting, at.ranks);
    let levels = before.levels;
    StepCores {
        earlier,
        core,
        levels,
    }
}

// Adds the keys of the core of these ranks that the n keys from place `from` on lead to over one letter. The letter is skipped
// where no key of the earlier set stands there.
fn visit_letter(
    keys: &mut [u64],
    heads: &mut [u16; 16384],
    last: &mut [u32; 256],
    n: usize,
    from: usize,
    at: LetterBack,
    low: &[u8; 16],
    shape: Shape,
    opens: &[u8; 4096],
    parts: &[u8; 8],
) -> Grow
    requires { ((r : Rule) × RuleTables r opens.now parts.now shape × AllReached r parts.now shape keys.old n)
        × Chained keys.old heads.old last.old n
        × (from < n)
        × Cored parts.now shape.components at.ranks
        × Lowest at.ranks low.now
        × (at.letter < shape.s) }
    ensures { (r : Rule)
        → RuleTables r opens.now parts.now shape
        → AllReached r parts.now shape keys.old n
        → Grown (After from n keys.old (LeadsOver (automaton r) at.ranks at.letter))
        (ReachedKey r parts.now shape) keys.old n keys.new heads.new last.new
        result.m result.full }
{
    let set = set_before(opens, at.letter, low[15], shape.accepting);
    if wide(last_of(last, set)) <= from {
        return Grow { m: n, full: false };
    }
    let cores = step_over(at, low, shape, opens, parts);
    let levels = cores.levels;
    let step = CoreStep {
        earlier: cores.earlier,
        core: cores.core,
        ranks: at.ranks,
        letter: at.letter,
        components: shape.components,
    };
    move_keys(keys, heads, last, n, from, step, parts, &levels)
}

// Adds the keys of the core of these ranks that the n keys from place `from` on lead to; none if the ranks are no core's.
pub fn visit(
    keys: &mut [u64],
    heads: &mut [u16; 16384],
    last: &mut [u32; 256],
    n: usize,
    from: usize,
    ranks: u64,
    shape: Shape,
    opens: &[u8; 4096],
    parts: &[u8; 8],
) -> Grow
    requires { ((r : Rule) × RuleTables r opens.now parts.now shape × AllReached r parts.now shape keys.old n)
        × Chained keys.old heads.old last.old n
        × (from < n)
        × Within 8 ranks (caps_of parts.now shape.components) }
    ensures { (r : Rule)
        → RuleTables r opens.now parts.now shape
        → AllReached r parts.now shape keys.old n
        → Grown (LeadsAt (automaton r) parts.now shape.components shape.s from n keys.old ranks)
        (ReachedKey r parts.now shape) keys.old n keys.new heads.new last.new
        result.m result.full }
{
    let mut g = Grow { m: n, full: false };
    if !build_cores::is_core(ranks, parts, shape.components) {
        return g;
    }
    let low = build_cores::lowest(ranks);
    for a in 0..shape.s {
        let at = LetterBack { ranks, letter: a };
        g = visit_letter(keys, heads, last, g.m, from, at, &low, shape, opens, parts);
        if g.full {
            return g;
        }
    }
    g
}
