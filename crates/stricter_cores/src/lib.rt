// Leaves those pairs of cores of two tagged tables from which both can accept: once pairs go out that lead to none that is in, then for
// each component of either table those that cannot reach a step that spares it, until none goes out.

#![tactic(auto)]

ghost use Rattle.std.specs.Prelude.{◌≡◌, Bool, true, false, cond, ℕ, ◌+◌, ◌*◌, ◌≤◌, ◌<◌, length, get_or};
ghost use mathlib.Core.List.{Memᴰ};
ghost use Rattle.stricter_laws.specs.Pairs.{RowCut};
ghost use Rattle.stricter_spec.specs.Tags.{row_of_lem, untagged};
ghost use Rattle.stricter_spec.specs.Steps.{CoreStep, SparedStep, CoresFit, stands_in, OnlyCores};
ghost use Rattle.stricter_spec.specs.Rounds.{Tried, Swept, Round, Narrowed, AllSound, Pass};
ghost use Rattle.stricter_laws.specs.Parts.{Ready, Begun, Settled, Side, Thinned};

use codes::CODE_BITS;
use slice_search::bytes::{next_between, next_set};
use stricter_core_rows::{Asked, leads};
use stricter_word::rows::cut_low;

// ---- sweeps

// Whether number i stands for its core.
#[tactic(auto, unfolding(stricter_spec::specs::Steps::stands_in))]
fn stands(acodes: &[u64], i: usize) -> bool
    requires { i < length acodes.now }
    ensures { result ≡ stands_in acodes.now i }
{
    (acodes[i] >> CODE_BITS) as usize == i
}

// Marks the pair of core i, whose row is cut, and core j if it is in, not marked, and a step that spares the component asked for leads to
// one that is in, or any step to one that is marked; whether it did.
fn mark_pair(
    left: &[u64],
    cuts: &[usize; 17],
    right: &[u64],
    nb: usize,
    i: usize,
    j: usize,
    ask: Asked,
    marks: &mut [u8],
) -> bool
    requires { ((na : ℕ) × Ready na nb left.now right.now marks.old) × RowCut (untagged left.now) i cuts.now
        × (i < 65536) × (j < nb) × (ask.k < 8) × (ask.other ≡ 2) × (i * nb + j < length marks.old) }
    ensures { Tried (CoreStep nb left.now right.now)
        (SparedStep nb left.now right.now ask.second ask.k)
        (i * nb + j) (i * nb + j + 1) marks.old marks.new result }
{
    let x = i * nb + j;
    if marks[x] != 1 {
        return false;
    }
    if !leads(left, cuts, right, nb, j, ask, marks) {
        return false;
    }
    marks[x] = 2;
    true
}

// Marks such pairs of core i from place `from` on; pairs that are out are skipped.
fn sweep_row(
    left: &[u64],
    cuts: &[usize; 17],
    right: &[u64],
    nb: usize,
    i: usize,
    from: usize,
    ask: Asked,
    marks: &mut [u8],
) -> bool
    requires { ((na : ℕ) × Ready na nb left.now right.now marks.old) × RowCut (untagged left.now) i cuts.now
        × (i < 65536) × (i * nb ≤ from) × (from ≤ i * nb + nb) × (ask.k < 8) × (ask.other ≡ 2) × (i * nb + nb ≤ length marks.old) }
    ensures { Tried (CoreStep nb left.now right.now)
        (SparedStep nb left.now right.now ask.second ask.k)
        from (i * nb + nb) marks.old marks.new result }
{
    let row = i * nb;
    let end = row + nb;
    let mut changed = false;
    let mut x = from;
    // A while: the pair jumps to the next one that is in.
    while x < end {
        changed |= mark_pair(left, cuts, right, nb, i, x - row, ask, marks);
        x = next_set(marks, x + 1, end);
    }
    changed
}

// Marks such pairs of number i, none of which is in if it does not stand for its core. A row is cut where a pair is in and not marked.
fn visit_row(
    acodes: &[u64],
    left: &[u64],
    right: &[u64],
    nb: usize,
    i: usize,
    ask: Asked,
    marks: &mut [u8],
) -> bool
    requires { Ready (length acodes.now) nb left.now right.now marks.old × OnlyCores acodes.now nb marks.old
        × (i < length acodes.now) × (ask.k < 8) × (ask.other ≡ 2) }
    ensures { Tried (CoreStep nb left.now right.now)
        (SparedStep nb left.now right.now ask.second ask.k)
        (i * nb) (i * nb + nb) marks.old marks.new result }
{
    if !stands(acodes, i) {
        return false;
    }
    let row = i * nb;
    let end = row + nb;
    let first = next_between(marks, row, end, 1, 2);
    if first == end {
        return false;
    }
    let cuts = cut_low(left, 0xff_ffff_ffff, i);
    sweep_row(left, &cuts, right, nb, i, first, ask, marks)
}

// Marks all such pairs.
fn sweep(
    acodes: &[u64],
    left: &[u64],
    right: &[u64],
    nb: usize,
    ask: Asked,
    marks: &mut [u8],
) -> bool
    requires { Ready (length acodes.now) nb left.now right.now marks.old × (ask.k < 8) × (ask.other ≡ 2)
        × Begun (CoreStep nb left.now right.now) (SparedStep nb left.now right.now ask.second ask.k) acodes.now nb
        marks.old }
    ensures { Tried (CoreStep nb left.now right.now)
        (SparedStep nb left.now right.now ask.second ask.k)
        0 (length acodes.now * nb) marks.old marks.new result }
{
    let mut changed = false;
    for i in 0..acodes.len() {
        changed |= visit_row(acodes, left, right, nb, i, ask, marks);
    }
    changed
}

// Sweeps until nothing is new.
fn sweep_out(acodes: &[u64], left: &[u64], right: &[u64], nb: usize, ask: Asked, marks: &mut [u8])
    requires { Ready (length acodes.now) nb left.now right.now marks.old × OnlyCores acodes.now nb marks.old
        × ((x : ℕ) → get_or marks.old x 0 ≤ 1) × (ask.k < 8) × (ask.other ≡ 2) }
    ensures { Swept (CoreStep nb left.now right.now)
        (SparedStep nb left.now right.now ask.second ask.k) marks.old marks.new }
{
    // A while: it sweeps until nothing is new.
    while sweep(acodes, left, right, nb, ask, marks) {}
}

// ---- rounds

// Takes out the pairs of number i that are not marked, and the marks off the others; whether a pair went out.
fn settle_row(acodes: &[u64], nb: usize, i: usize, marks: &mut [u8]) -> bool
    requires { (length marks.old ≡ length acodes.now * nb) × OnlyCores acodes.now nb marks.old × (i < length acodes.now) }
    ensures { Settled (i * nb) (i * nb + nb) marks.old marks.new result }
{
    if !stands(acodes, i) {
        return false;
    }
    let row = i * nb;
    let end = row + nb;
    let mut changed = false;
    let mut x = next_set(marks, row, end);
    // A while: the pair jumps to the next one that is in.
    while x < end {
        changed |= marks[x] == 1;
        marks[x] >>= 1;
        x = next_set(marks, x + 1, end);
    }
    changed
}

// Takes out all pairs that are not marked, and the marks off the others; whether a pair went out.
fn settle(acodes: &[u64], nb: usize, marks: &mut [u8]) -> bool
    requires { (length marks.old ≡ length acodes.now * nb) × OnlyCores acodes.now nb marks.old }
    ensures { Settled 0 (length acodes.now * nb) marks.old marks.new result }
{
    let mut changed = false;
    for i in 0..acodes.len() {
        changed |= settle_row(acodes, nb, i, marks);
    }
    changed
}

// Takes out the pairs from which no walk takes a step that spares the component asked for; whether there were such.
fn round(
    acodes: &[u64],
    left: &[u64],
    right: &[u64],
    nb: usize,
    ask: Asked,
    marks: &mut [u8],
) -> bool
    requires { Ready (length acodes.now) nb left.now right.now marks.old × OnlyCores acodes.now nb marks.old
        × ((x : ℕ) → get_or marks.old x 0 ≤ 1) × (ask.k < 8) × (ask.other ≡ 2) }
    ensures { Round (CoreStep nb left.now right.now)
        (SparedStep nb left.now right.now ask.second ask.k) marks.old marks.new result }
{
    sweep_out(acodes, left, right, nb, ask, marks);
    settle(acodes, nb, marks)
}

// A round for each of the first `count` components on a side; whether a pair went out.
fn rounds(
    acodes: &[u64],
    left: &[u64],
    right: &[u64],
    nb: usize,
    second: bool,
    count: usize,
    marks: &mut [u8],
) -> bool
    requires { Ready (length acodes.now) nb left.now right.now marks.old × OnlyCores acodes.now nb marks.old
        × ((x : ℕ) → get_or marks.old x 0 ≤ 1) × (count ≤ 8) }
    ensures { (components : Bool → ℕ) → count ≤ components second
        → Side (CoreStep nb left.now right.now) (SparedStep nb left.now right.now) components
        second count marks.old marks.new result }
{
    let mut changed = false;
    for k in 0..count {
        let ask = Asked {
            second,
            k: k as u32,
            other: 2,
        };
        changed |= round(acodes, left, right, nb, ask, marks);
    }
    changed
}

// A round for each component of either table; whether a pair went out.
fn pass(
    acodes: &[u64],
    left: &[u64],
    acount: usize,
    nb: usize,
    right: &[u64],
    bcount: usize,
    marks: &mut [u8],
) -> bool
    requires { Ready (length acodes.now) nb left.now right.now marks.old × OnlyCores acodes.now nb marks.old
        × ((x : ℕ) → get_or marks.old x 0 ≤ 1) × (acount ≤ 8) × (bcount ≤ 8) }
    ensures { Pass (CoreStep nb left.now right.now) (SparedStep nb left.now right.now)
        (λ s. cond s bcount acount) marks.old marks.new result }
{
    let first = rounds(acodes, left, right, nb, false, acount, marks);
    let second = rounds(acodes, left, right, nb, true, bcount, marks);
    first || second
}

// Passes until none takes a pair out.
fn passes(
    acodes: &[u64],
    left: &[u64],
    acount: usize,
    nb: usize,
    right: &[u64],
    bcount: usize,
    marks: &mut [u8],
)
    requires { Ready (length acodes.now) nb left.now right.now marks.old × OnlyCores acodes.now nb marks.old
        × ((x : ℕ) → get_or marks.old x 0 ≤ 1) × (acount ≤ 8) × (bcount ≤ 8) }
    ensures narrowed { Narrowed (CoreStep nb left.now right.now)
        (SparedStep nb left.now right.now)
        (λ s. cond s bcount acount) marks.old marks.new }
    ensures all_sound { AllSound (CoreStep nb left.now right.now)
        (SparedStep nb left.now right.now) (λ s. cond s bcount acount) marks.new }
{
    // A while: it passes until no pair goes out.
    while pass(acodes, left, acount, nb, right, bcount, marks) {}
}

// ---- dead ends

// Takes out the pair of core i, whose row is cut, and core j if no step leads to one that is in.
fn drop_pair(
    left: &[u64],
    cuts: &[usize; 17],
    right: &[u64],
    nb: usize,
    i: usize,
    j: usize,
    marks: &mut [u8],
)
    requires { ((na : ℕ) × Ready na nb left.now right.now marks.old) × RowCut (untagged left.now) i cuts.now
        × (i < 65536) × (j < nb) × (i * nb + j < length marks.old) }
    ensures { Thinned (CoreStep nb left.now right.now) marks.old marks.new }
{
    let ask = Asked {
        second: false,
        k: 0,
        other: 1,
    };
    if leads(left, cuts, right, nb, j, ask, marks) {
        return;
    }
    marks[i * nb + j] = 0;
}

// Takes out such pairs of core i from place `from` on.
fn drop_row(
    left: &[u64],
    cuts: &[usize; 17],
    right: &[u64],
    nb: usize,
    i: usize,
    from: usize,
    marks: &mut [u8],
)
    requires { ((na : ℕ) × Ready na nb left.now right.now marks.old) × RowCut (untagged left.now) i cuts.now
        × (i < 65536) × (i * nb ≤ from) × (from ≤ i * nb + nb) × (i * nb + nb ≤ length marks.old) }
    ensures { Thinned (CoreStep nb left.now right.now) marks.old marks.new }
{
    let row = i * nb;
    let end = row + nb;
    let mut x = from;
    // A while: the pair jumps to the next one that is in.
    while x < end {
        drop_pair(left, cuts, right, nb, i, x - row, marks);
        x = next_set(marks, x + 1, end);
    }
}

// Takes out such pairs of number i.
fn thin_row(acodes: &[u64], left: &[u64], right: &[u64], nb: usize, i: usize, marks: &mut [u8])
    requires { Ready (length acodes.now) nb left.now right.now marks.old × (i < length acodes.now) }
    ensures { Thinned (CoreStep nb left.now right.now) marks.old marks.new }
{
    if !stands(acodes, i) {
        return;
    }
    let row = i * nb;
    let end = row + nb;
    let first = next_set(marks, row, end);
    if first == end {
        return;
    }
    let cuts = cut_low(left, 0xff_ffff_ffff, i);
    drop_row(left, &cuts, right, nb, i, first, marks);
}

// Takes out all such pairs: most of them go at once.
fn thin(acodes: &[u64], left: &[u64], right: &[u64], nb: usize, marks: &mut [u8])
    requires { Ready (length acodes.now) nb left.now right.now marks.old }
    ensures { Thinned (CoreStep nb left.now right.now) marks.old marks.new }
{
    for i in 0..acodes.len() {
        thin_row(acodes, left, right, nb, i, marks);
    }
}

// Takes pairs of cores out until from each that is left, for each component of either table, a walk along such pairs spares it.
pub fn narrow(
    acodes: &[u64],
    left: &[u64],
    acount: usize,
    nb: usize,
    right: &[u64],
    bcount: usize,
    marks: &mut [u8],
)
    requires cores_fit { CoresFit (length acodes.now) nb left.now right.now marks.old × OnlyCores acodes.now nb marks.old
        × ((x : ℕ) → get_or marks.old x 0 ≤ 1) × (acount ≤ 8) × (bcount ≤ 8) }
    requires by_index { (u : ℕ) → Memᴰ u right.now → row_of_lem u < nb }
    ensures narrowed { Narrowed (CoreStep nb left.now right.now)
        (SparedStep nb left.now right.now)
        (λ s. cond s bcount acount) marks.old marks.new }
    ensures all_sound { AllSound (CoreStep nb left.now right.now)
        (SparedStep nb left.now right.now) (λ s. cond s bcount acount) marks.new }
{
    thin(acodes, left, right, nb, marks);
    passes(acodes, left, acount, nb, right, bcount, marks);
}
