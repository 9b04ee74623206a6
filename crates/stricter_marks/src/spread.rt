// Marks for the pairs of cores of two tagged tables, on which is decided what is in, and from them marks for all pairs of numbers, among
// which the word is looked for.
ghost use Rattle.std.specs.Prelude.{◌≡◌, false, cond, ℕ, ◌+◌, ◌-◌, ◌*◌, ◌≤◌, ◌<◌, eqb, ltb, length, get_or};
ghost use Rattle.sets.specs.Tests.{one};
ghost use Rattle.stricter_spec.specs.Tags.{core_number_lem};
ghost use Rattle.stricter_spec.specs.Steps.{stands_in, has_core, OnlyCores, CoresIn, Spread};
ghost use Rattle.stricter_laws.specs.Fill.{Filled};
ghost use Rattle.stricter_marks.specs.Rows.{placed_at, taken_at_lem, Standing};

use codes::CODE_BITS;

// The number of a tagged code's core.
fn core_number(code: u64) -> usize
    ensures { result ≡ core_number_lem code }
{
    (code >> CODE_BITS) as usize
}

// 1 where a tagged code is that of the number i that stands for its core, else 0.
fn standing(code: u64, i: usize) -> u8
    ensures { result ≡ one (eqb (core_number_lem code) i) }
{
    if core_number(code) == i {
        return 1;
    }
    0
}

// A row of n pairs from place base on is out.
fn clear_row(n: usize, base: usize, marks: &mut [u8])
    requires { base + n ≤ length marks.old }
    ensures { Filled (λ _. 0) base (base + n) marks.old marks.new }
{
    marks[base..base + n].fill(0);
}

// In the row from place base on the pairs with a number that stands are in.
fn stand_row(bcodes: &[u64], base: usize, marks: &mut [u8])
    requires { base + length bcodes.now ≤ length marks.old }
    ensures { Filled (λ x. one (stands_in bcodes.now (x - base))) base (base + length bcodes.now)
        marks.old marks.new }
{
    for (j, c) in bcodes.iter().enumerate() {
        marks[base + j] = standing(*c, j);
    }
}

// The pairs of number i are in where both numbers stand.
fn place_row(acodes: &[u64], bcodes: &[u64], i: usize, marks: &mut [u8])
    requires { (i < length acodes.now) × (length marks.old ≡ length acodes.now * length bcodes.now) }
    ensures { Filled (placed_at acodes.now bcodes.now)
        (i * length bcodes.now) (i * length bcodes.now + length bcodes.now)
        marks.old marks.new }
{
    let base = i * bcodes.len();
    if standing(acodes[i], i) == 0 {
        clear_row(bcodes.len(), base, marks);
        return;
    }
    stand_row(bcodes, base, marks);
}

// The pairs of numbers that both stand for their cores are in, no others.
pub fn place_cores(acodes: &[u64], bcodes: &[u64], marks: &mut [u8])
    requires { (length marks.old ≡ length acodes.now * length bcodes.now)
        × (length acodes.now ≤ 65536) × (length bcodes.now ≤ 65536) }
    ensures { CoresIn acodes.now bcodes.now marks.new }
{
    for i in 0..acodes.len() {
        place_row(acodes, bcodes, i, marks);
    }
}

// What the pair of a core, whose row begins at `row`, and core k of nb numbers has for a mark; 0 where k is no number.
fn mark_of(marks: &[u8], row: usize, k: usize, nb: usize) -> u8
    requires { row + nb ≤ length marks.now }
    ensures { result ≡ cond (ltb k nb) (get_or marks.now (row + k) 0) 0 }
{
    if nb <= k {
        return 0;
    }
    marks[row + k]
}

// The pairs of number i take the marks of the pairs of their cores, which keep theirs. A number that has no core has no pair that is in.
fn spread_row(acodes: &[u64], bcodes: &[u64], i: usize, marks: &mut [u8])
    requires i_in_bounds { (i < length acodes.now) × (length marks.old ≡ length acodes.now * length bcodes.now) }
    requires standing { Standing acodes.now × Standing bcodes.now × (has_core acodes.now i ≡ false
        → (x : ℕ) → i * length bcodes.now ≤ x → x < i * length bcodes.now + length bcodes.now → get_or marks.old x 0 ≡ 0) }
    ensures { Filled (taken_at_lem acodes.now bcodes.now marks.old)
        (i * length bcodes.now) (i * length bcodes.now + length bcodes.now)
        marks.old marks.new }
{
    let core = core_number(acodes[i]);
    if acodes.len() <= core {
        return;
    }
    let row = core * bcodes.len();
    let base = i * bcodes.len();
    for (j, c) in bcodes.iter().enumerate() {
        marks[base + j] = mark_of(marks, row, core_number(*c), bcodes.len());
    }
}

// All pairs take the marks of the pairs of their cores.
pub fn spread_marks(acodes: &[u64], bcodes: &[u64], marks: &mut [u8])
    requires { (length marks.old ≡ length acodes.now * length bcodes.now)
        × (length acodes.now ≤ 65536) × (length bcodes.now ≤ 65536) × Standing acodes.now × Standing bcodes.now
        × OnlyCores acodes.now (length bcodes.now) marks.old }
    ensures { Spread acodes.now bcodes.now marks.old marks.new }
{
    for i in 0..acodes.len() {
        spread_row(acodes, bcodes, i, marks);
    }
}
