// Cores as vectors of eight ranks, four bits each (the set of a core follows from its ranks); which states are open before a set; and how
// the component and the classes left go on over one step.

#![tactic(auto)]

pub mod breakpoint;
pub mod opens;

ghost use Rattle.std.specs.Prelude.{◌≡◌, ℕ, ◌^◌, ◌<◌, ◌≤◌, ◌&&◌, eqb, leb, ltb, get_or};
ghost use Rattle.sets.specs.Tests.{one, every};
ghost use Rattle.sets.specs.Masks.{bit, mask};
ghost use Rattle.sets.specs.Digits.{num};
ghost use Rattle.build_cores.specs.Vectors.{rank_at, Within, next_of};
ghost use Rattle.build_cores.specs.Used.{used, class_count_lem, gapless, sizes_of, caps_of};

// A mask with each bit moved to the place of its nibble.
pub fn nibbles_of(m: u8) -> u32
    ensures { result ≡ num 16 8 (λ q. one (bit m q)) }
{
    let a = m as u32;
    let b = (a | (a << 12)) & 0x000f_000f;
    let c = (b | (b << 6)) & 0x0303_0303;
    (c | (c << 3)) & 0x1111_1111
}

// In place j the states of rank j.
pub fn ranked(ranks: u64) -> [u8; 16]
    ensures { (j : ℕ) → j < 16 → get_or result j 0 ≡ mask 8 (λ p. eqb (rank_at ranks p) j) }
{
    let mut at = [0u8; 16];
    for q in 0..8u32 {
        let r = ((ranks >> (4 * q)) & 15) as usize;
        at[r] |= 1u8 << q;
    }
    at
}

// In place j the union of places 1 to j.
pub fn gathered(at: &[u8; 16]) -> [u8; 16]
    ensures { (n : ℕ → ℕ)
        → ((j : ℕ) → j < 16 → get_or at.now j 0 ≡ mask 8 (λ p. eqb (n p) j))
        → (j : ℕ)
        → j < 16
        → get_or result j 0 ≡ mask 8 (λ p. ltb 0 (n p) && leb (n p) j) }
{
    let mut low = [0u8; 16];
    for j in 1..16 {
        low[j] = low[j - 1] | at[j];
    }
    low
}

// In place j the states of rank 1 to j; the last place holds the open states.
pub fn lowest(ranks: u64) -> [u8; 16]
    ensures { (j : ℕ) → j < 16 → get_or result j 0 ≡ mask 8 (λ p. ltb 0 (rank_at ranks p) && leb (rank_at ranks p) j) }
{
    let at = ranked(ranks);
    gathered(&at)
}

// The ranks in use among the states of a component, as a mask of ranks; 0 is always in it.
pub fn used_ranks(ranks: u64, part: u8) -> u32
    ensures { result ≡ mask 16 (used ranks part) }
{
    let mut found: u32 = 1;
    let mut left = part;
    // A while: it visits the states of the component alone.
    while left != 0 {
        let q = u8::trailing_zeros(left);
        found |= 1u32 << ((ranks >> (4 * q)) & 15);
        left &= left - 1;
    }
    found
}

// The number of rank classes of a component.
pub fn class_count(ranks: u64, part: u8) -> u32
    ensures { result ≡ class_count_lem ranks part }
{
    u32::count_ones(used_ranks(ranks, part)) - 1
}

// Whether the ranks of each component have no gap.
pub fn is_core(ranks: u64, parts: &[u8; 8], components: usize) -> bool
    requires { components ≤ 8 }
    ensures { result ≡ every components (λ c. gapless ranks (get_or parts.now c 0)) }
{
    for part in &parts[..components] {
        let found = used_ranks(ranks, *part);
        if found & (found + 1) != 0 {
            return false;
        }
    }
    true
}

// The size of a component, at the place of each of its states.
pub fn sizes(part: u8) -> u32
    ensures { result ≡ sizes_of part }
{
    nibbles_of(part) * u8::count_ones(part)
}

// The largest ranks: that of a state is the size of its component.
pub fn largest_ranks(parts: &[u8; 8], components: usize) -> u64
    requires { components ≤ 8 }
    ensures { result ≡ caps_of parts.now components }
{
    let mut caps: u64 = 0;
    for part in &parts[..components] {
        caps += sizes(*part) as u64;
    }
    caps
}

// The next vector after ranks, each rank at most that of caps.
pub fn next_ranks(ranks: u64, caps: u64) -> u64
    requires { (caps < 2 ^ 32) × (ranks < 2 ^ 32) × Within 8 ranks caps × (ranks ≡ caps → ⊥) }
    ensures { result ≡ next_of 8 ranks caps }
{
    let mut w = ranks;
    let mut c = caps;
    let mut shift: u32 = 0;
    // A while: it passes over the lowest ranks, as long as they are at their largest.
    while w & 15 == c & 15 {
        w >>= 4;
        c >>= 4;
        shift += 4;
    }
    (w + 1) << shift
}
