// The steps of a pair of cores, one of each of two tagged tables: whether a pair leads to one that has a mark.

#![tactic(auto)]

ghost use Rattle.std.specs.Prelude.{◌≡◌, cond, ℕ, ◌+◌, ◌*◌, ◌≤◌, ◌<◌, length, get_or};
ghost use mathlib.Core.List.{Memᴰ};
ghost use Rattle.theory.specs.Run.{letter_of_lem};
ghost use Rattle.stricter_laws.specs.Pairs.{RowCut};
ghost use Rattle.stricter_spec.specs.Tags.{row_of_lem, onto_of_lem, sparing, untagged};
ghost use Rattle.stricter_spec.specs.Steps.{CoreStep, SparedStep, CoresFit};
ghost use Rattle.stricter_spec.specs.Rounds.{Leading};
ghost use Rattle.stricter_core_rows.specs.Rows.{needed, Met};

use codes::{MOVE_BITS, SOURCE_SHIFT, letter_of};
use slice_search::place_low;

// ---- tagged transitions

// The number that a tagged transition comes from.
fn row_of(t: u64) -> usize
    ensures { result ≡ row_of_lem t }
{
    ((t >> SOURCE_SHIFT) & 0xffff) as usize
}

// The number of its target's core.
fn onto_of(t: u64) -> usize
    ensures { result ≡ onto_of_lem t }
{
    ((t >> MOVE_BITS) & 0xffff) as usize
}

// What is asked of a step: it counts where it leads to a mark of 1 and spares component k, of B if `second`, else of A, or where it leads
// to a mark of at least `other`.
#[derive(Clone, Copy)]
pub struct Asked {
    pub second: bool,
    pub k: u32,
    pub other: u8,
}

// One of two transitions.
fn pick(second: bool, u: u64, t: u64) -> u64
    ensures { result ≡ cond second u t }
{
    if second {
        return u;
    }
    t
}

// The mark that a step must find by a transition that tells what it spares.
fn least_of(t: u64, ask: Asked) -> u8
    requires { ask.k < 8 }
    ensures { result ≡ needed ask.other (sparing t ask.k) }
{
    let k = ask.k;
    if (t >> (56 + k)) & 1 == 1 {
        return 1;
    }
    ask.other
}

// ---- steps

// Whether a transition of A from place `from` up to `to` leads, beside the transition u of B, to a pair that has the mark it needs.
fn has_marked(
    left: &[u64],
    from: usize,
    to: usize,
    u: u64,
    nb: usize,
    ask: Asked,
    marks: &[u8],
) -> bool
    requires { (ask.k < 8) × (to ≤ length left.now)
        × ((t : ℕ) → Memᴰ t left.now → onto_of_lem t * nb + onto_of_lem u < length marks.now) }
    ensures { Met (λ t. needed ask.other (sparing (cond ask.second u t) ask.k)) nb left.now from to (onto_of_lem u)
        marks.now result }
{
    let q = onto_of(u);
    for c in from..to {
        let t = left[c];
        let y = onto_of(t) * nb + q;
        if least_of(pick(ask.second, u, t), ask) <= marks[y] {
            return true;
        }
    }
    false
}

// Whether the pair of a core of A, whose row is cut, and core j of B leads to a pair that has the mark needed.
pub fn leads(
    left: &[u64],
    cuts: &[usize; 17],
    right: &[u64],
    nb: usize,
    j: usize,
    ask: Asked,
    marks: &[u8],
) -> bool
    requires by_index { ((na : ℕ) × CoresFit na nb left.now right.now marks.now) × (j < nb) × (ask.k < 8)
        × (1 ≤ ask.other) }
    requires by_index_2 { (a : ℕ) → a < 17 → get_or cuts.now a 0 ≤ length left.now }
    requires by_index_3 { (u : ℕ) → Memᴰ u right.now → row_of_lem u < nb }
    ensures { (i : ℕ) → i < 65536 → RowCut (untagged left.now) i cuts.now
        → Leading (CoreStep nb left.now right.now)
        (SparedStep nb left.now right.now ask.second ask.k) ask.other marks.now
        (i * nb + j) result }
{
    let key = j * 0x0100_0000;
    for p in place_low(right, 0xff_ffff_ffff, key as u64)..right.len() {
        let u = right[p];
        if row_of(u) != j {
            return false;
        }
        let a = letter_of(u);
        if has_marked(left, cuts[a], cuts[a + 1], u, nb, ask, marks) {
            return true;
        }
    }
    false
}
