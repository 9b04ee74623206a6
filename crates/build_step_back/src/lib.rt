// The step back over one letter: a core has one earlier core, so the build goes back from each core. By Definition 7 of source 000 it takes
// rejecting components (R1'), then accepting ones (R2'), and leaves the earlier core and the levels of its classes.

#![tactic(auto)]

ghost use Rattle.std.specs.Prelude.{◌≡◌, ℕ, ◌+◌, ◌*◌, ◌^◌, ◌<◌, ◌≤◌, length, get_or};
ghost use Rattle.std.specs.Int.Bits.{bit_xor};
ghost use Rattle.build_step_back.specs.Step.{Rising, Stepped, rejecting_part, accepting_part, part_of, BackOf, Back};

// A 1 in each nibble but the lowest.
const ONES: u64 = 0x1111_1111_1111_1110;

// Ranks and levels of one component.
#[derive(Clone, Copy)]
pub struct Step {
    pub ranks: u32,
    pub levels: u64,
}

// The earlier ranks of one component, and in nibble k the largest level of its k lowest classes.
// The table of open states has taken the dual of accepting entries, so both kinds of components go the same way here.
pub fn step_component(
    opens: &[u8; 4096],
    letter: usize,
    opened: u8,
    part: u8,
    low: &[u8; 16],
) -> Step
    requires { Rising opens.now letter opened part low.now }
    ensures { Stepped opens.now letter opened part low.now result.ranks result.levels }
{
    let row = letter * 256;
    let outside = (opened ^ (opened & part)) as usize;
    let goal = opens[row + opened as usize] & part;
    if goal == 0 {
        return Step {
            ranks: 0,
            levels: 0,
        };
    }
    let mut prev = 0u8;
    // A 1 in each nibble from 1 on: those of the classes that are still to come. Nibble 0, of no class, stays 0.
    let mut ones = ONES;
    let mut ranks = 0u32;
    let mut levels = 0u64;
    for states in low {
        if prev == goal {
            break;
        }
        let x = opens[row + (outside | (*states & part) as usize)] & part;
        // In turn j, from 0 on, classes that are still to come have a level of at least j: their nibbles, which hold j, now hold j + 1.
        // Levels are at most 8, so no sum leaves its nibble.
        levels += ones;
        if x == prev {
            continue;
        }
        // The states x ^ prev have level j and are the next class, whose nibble is done, one more than j: the lowest of the 1s goes, by a shift.
        ones = ones << 4;
        // They, and all states that come later, are one class higher than what came before.
        ranks += build_cores::nibbles_of(goal ^ prev);
        prev = x;
    }
    // The nibbles above the last class have gone up with it: each from 1 on holds one more than the largest level of so many classes.
    levels -= ONES;
    Step { ranks, levels }
}

// A 32-bit number as one of 64 bits.
fn wide(x: u32) -> u64
    ensures { result ≡ x }
{
    x as u64
}

// The earlier ranks of the components of one kind, the accepting ones or the rejecting ones.
// Their levels go to their places of levels, the other places stay.
fn step_kind(
    opens: &[u8; 4096],
    letter: usize,
    opened: u8,
    parts: &[u8; 8],
    components: usize,
    accepting: u8,
    low: &[u8; 16],
    levels: &mut [u64; 8],
    kind: bool,
) -> u64
    requires { (components ≤ 8)
        × ((c : ℕ) → c < components → Rising opens.now letter opened (get_or parts.now c 0) low.now)
        × (length levels.old ≡ 8) }
    ensures { BackOf (part_of parts.now accepting kind) opens.now letter opened parts.now
        components low.now levels.old result levels.new }
{
    let mut ranks: u64 = 0;
    for c in 0..components {
        let part = parts[c];
        if (part & accepting != 0) != kind {
            continue;
        }
        let step = step_component(opens, letter, opened, part, low);
        let r = step.ranks;
        let l = step.levels;
        ranks += wide(r);
        levels[c] = l;
    }
    ranks
}

// Definition 7, R1': the earlier ranks of the rejecting components.
pub fn step_rejecting(
    opens: &[u8; 4096],
    letter: usize,
    opened: u8,
    parts: &[u8; 8],
    components: usize,
    accepting: u8,
    low: &[u8; 16],
    levels: &mut [u64; 8],
) -> u64
    requires { (components ≤ 8)
        × ((c : ℕ) → c < components → Rising opens.now letter opened (get_or parts.now c 0) low.now)
        × (length levels.old ≡ 8) }
    ensures { BackOf (rejecting_part parts.now accepting) opens.now letter opened parts.now
        components low.now levels.old result levels.new }
{
    step_kind(
        opens, letter, opened, parts, components, accepting, low, levels, false,
    )
}

// Definition 7, R2': those of the accepting components.
pub fn step_accepting(
    opens: &[u8; 4096],
    letter: usize,
    opened: u8,
    parts: &[u8; 8],
    components: usize,
    accepting: u8,
    low: &[u8; 16],
    levels: &mut [u64; 8],
) -> u64
    requires { (components ≤ 8)
        × ((c : ℕ) → c < components → Rising opens.now letter opened (get_or parts.now c 0) low.now)
        × (length levels.old ≡ 8) }
    ensures { BackOf (accepting_part parts.now accepting) opens.now letter opened parts.now
        components low.now levels.old result levels.new }
{
    step_kind(
        opens, letter, opened, parts, components, accepting, low, levels, true,
    )
}

// Ranks of the earlier core, and in place c the levels of component c.
#[derive(Clone, Copy)]
pub struct Earlier {
    pub ranks: u64,
    pub levels: [u64; 8],
}

// The earlier ranks; in levels[c] the levels of component c.
pub fn step_back(
    opens: &[u8; 4096],
    letter: usize,
    opened: u8,
    parts: &[u8; 8],
    components: usize,
    accepting: u8,
    low: &[u8; 16],
) -> Earlier
    requires { (components ≤ 8) × ((c : ℕ) → c < components → Rising opens.now letter opened (get_or parts.now c 0) low.now) }
    ensures { Back opens.now letter opened parts.now components low.now result.ranks result.levels }
{
    let mut levels = [0u64; 8];
    let rejecting = step_rejecting(
        opens,
        letter,
        opened,
        parts,
        components,
        accepting,
        low,
        &mut levels,
    );
    let others = step_accepting(
        opens,
        letter,
        opened,
        parts,
        components,
        accepting,
        low,
        &mut levels,
    );
    Earlier {
        ranks: rejecting + others,
        levels,
    }
}

// The number of a core: the set in bits 0 to 7, the ranks above.
pub fn core_of(opened: u8, accepting: u8, ranks: u64) -> u64
    requires { ranks < 2 ^ 32 }
    ensures { result ≡ ranks * 2 ^ 8 + bit_xor opened accepting }
{
    (ranks << 8) | (opened ^ accepting) as u64
}
