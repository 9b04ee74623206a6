// A search through the pairs of numbers of two tables that are in, from one of them. Each pair that is met gets a byte that tells the step
// by which it was met, so that the way to it can be followed back.
ghost use Rattle.std.specs.Prelude.{◌≡◌, true, ℕ, ◌+◌, ◌*◌, ◌≤◌, ◌<◌, length, get_or};
ghost use mathlib.Core.List.{Memᴰ};
ghost use Rattle.sets.specs.Tests.{one};
ghost use Rattle.theory.specs.Macrostate.{is_accepting_lem};
ghost use Rattle.theory.specs.Run.{target_of};
ghost use Rattle.slice_search.specs.Zeros.{NextBetween};
ghost use Rattle.stricter_laws.specs.Pairs.{PairStep, PairEdge, Paired, Fits, RowCut, Beside};
ghost use Rattle.stricter_laws.specs.Forest.{kind_in, Marked, Tried, Cleared, Waits, Passed, Exhausted, Explored};

use crate::rows::cut_row;
use codes::{is_accepting, letter_of, source_of, target_of};
use slice_search::bytes::{next_between, next_set};
use slice_search::place;

// ---- one pair's steps

// Meets the pairs that the transitions of A from place `from` up to `to` lead to beside number q of B.
fn meet(moves: &[u64], from: usize, to: usize, nb: usize, q: usize, byte: u8, marks: &mut [u8])
    requires { (to ≤ length moves.now) × (1 < byte)
        × ((t : ℕ) → Memᴰ t moves.now → target_of t * nb + q < length marks.old) }
    ensures { Marked (Beside nb moves.now from to q) byte marks.old marks.new }
{
    for c in from..to {
        let y = target_of(moves[c]) * nb + q;
        if marks[y] == 1 {
            marks[y] = byte;
        }
    }
}

// Meets the pairs that the pair of a number of A, whose row is cut, and number j of B leads to.
fn expand(
    left: &[u64],
    cuts: &[usize; 17],
    right: &[u64],
    nb: usize,
    j: usize,
    base: u8,
    marks: &mut [u8],
)
    requires paired { Paired nb left.now right.now (length marks.old) × (j < nb) × (j < 65536) × (1 < base) × (base ≤ 67) }
    requires by_index { (a : ℕ) → a < 17 → get_or cuts.now a 0 ≤ length left.now }
    ensures { (i : ℕ) → RowCut left.now i cuts.now
        → Tried (PairStep nb left.now right.now (i * nb + j))
        (PairEdge nb left.now right.now (i * nb + j)) base marks.old marks.new }
{
    let key = j * 0x0100_0000;
    for k in place(right, right.len(), key as u64)..right.len() {
        let u = right[k];
        if source_of(u) != j {
            return;
        }
        let a = letter_of(u);
        meet(
            left,
            cuts[a],
            cuts[a + 1],
            nb,
            target_of(u),
            base + 4 * (a as u8),
            marks,
        );
    }
}

// ---- passes

// On which sides the pair of two codes is accepting.
fn kind(a: u64, b: u64) -> u8
    ensures { result ≡ 2 * one (is_accepting_lem a) + one (is_accepting_lem b) }
{
    if is_accepting(a) {
        if is_accepting(b) {
            return 3;
        }
        return 2;
    }
    if is_accepting(b) {
        return 1;
    }
    0
}

// The first pair from `from` on, below `to`, that was met and waits for its steps to be tried; `to` where there is none.
fn next_waiting(marks: &[u8], from: usize, to: usize) -> usize
    requires { (from ≤ to) × (to ≤ length marks.now) }
    ensures { NextBetween 2 128 marks.now from to result }
{
    next_between(marks, from, to, 2, 128)
}

// Tries the steps of the pair of number i, whose row is cut, and number j, which waits for it.
fn visit(
    lcodes: &[u64],
    left: &[u64],
    cuts: &[usize; 17],
    rcodes: &[u64],
    right: &[u64],
    i: usize,
    j: usize,
    marks: &mut [u8],
)
    requires { Fits (length lcodes.now) (length rcodes.now) left.now right.now marks.old × RowCut left.now i cuts.now
        × (i < length lcodes.now) × (j < length rcodes.now) × Waits marks.old (i * length rcodes.now + j) }
    ensures { Passed (PairStep (length rcodes.now) left.now right.now)
        (kind_in lcodes.now rcodes.now)
        (i * length rcodes.now + j) (i * length rcodes.now + j + 1) marks.old marks.new true }
{
    let x = i * rcodes.len() + j;
    let v = marks[x];
    expand(
        left,
        cuts,
        right,
        rcodes.len(),
        j,
        64 + kind(lcodes[i], rcodes[j]),
        marks,
    );
    marks[x] = v + 128;
}

// Tries the steps of the pairs of number i that wait, of which j is the first.
fn visit_row(
    lcodes: &[u64],
    left: &[u64],
    cuts: &[usize; 17],
    rcodes: &[u64],
    right: &[u64],
    i: usize,
    j: usize,
    marks: &mut [u8],
)
    requires { Fits (length lcodes.now) (length rcodes.now) left.now right.now marks.old × RowCut left.now i cuts.now
        × (i < length lcodes.now) × (j < length rcodes.now) × Waits marks.old (i * length rcodes.now + j) }
    ensures { Passed (PairStep (length rcodes.now) left.now right.now)
        (kind_in lcodes.now rcodes.now)
        (i * length rcodes.now + j) (i * length rcodes.now + length rcodes.now)
        marks.old marks.new true }
{
    let row = i * rcodes.len();
    let end = row + rcodes.len();
    let mut k = j;
    loop {
        visit(lcodes, left, cuts, rcodes, right, i, k, marks);
        let x = next_waiting(marks, row + k + 1, end);
        if x == end {
            return;
        }
        k = x - row;
    }
}

// Tries the steps of all pairs that wait: a row without one is not cut. Whether there was one.
fn visit_all(lcodes: &[u64], left: &[u64], rcodes: &[u64], right: &[u64], marks: &mut [u8]) -> bool
    requires { Fits (length lcodes.now) (length rcodes.now) left.now right.now marks.old }
    ensures { Passed (PairStep (length rcodes.now) left.now right.now)
        (kind_in lcodes.now rcodes.now) 0 (length marks.old) marks.old marks.new result }
{
    let nb = rcodes.len();
    let mut changed = false;
    let mut x = next_waiting(marks, 0, marks.len());
    // A while: the place jumps to the next row with a pair that waits.
    while x < marks.len() {
        let i = x / nb;
        let cuts = cut_row(left, i);
        visit_row(lcodes, left, &cuts, rcodes, right, i, x % nb, marks);
        changed = true;
        x = next_waiting(marks, i * nb + nb, marks.len());
    }
    changed
}

// Tries the steps of all pairs that were met, until none waits.
fn exhaust(lcodes: &[u64], left: &[u64], rcodes: &[u64], right: &[u64], marks: &mut [u8])
    requires { Fits (length lcodes.now) (length rcodes.now) left.now right.now marks.old }
    ensures { Exhausted (PairStep (length rcodes.now) left.now right.now)
        (kind_in lcodes.now rcodes.now) marks.old marks.new }
{
    // A while: until a pass finds no pair that waits.
    while visit_all(lcodes, left, rcodes, right, marks) {}
}

// ---- a whole search

// Nothing is met.
fn clear(marks: &mut [u8])
    ensures { Cleared marks.old marks.new }
{
    let mut x = next_set(marks, 0, marks.len());
    // A while: the place jumps to the next byte that is set.
    while x < marks.len() {
        marks[x] = 1;
        x = next_set(marks, x + 1, marks.len());
    }
}

// Meets the pairs that the origin leads to in one step or more, along pairs that are in.
pub fn explore(
    lcodes: &[u64],
    left: &[u64],
    rcodes: &[u64],
    right: &[u64],
    origin: usize,
    marks: &mut [u8],
)
    requires { Fits (length lcodes.now) (length rcodes.now) left.now right.now marks.old × (origin < length marks.old) }
    ensures { Explored (PairStep (length rcodes.now) left.now right.now)
        (kind_in lcodes.now rcodes.now) origin marks.old marks.new }
{
    clear(marks);
    let nb = rcodes.len();
    let cuts = cut_row(left, origin / nb);
    expand(left, &cuts, right, nb, origin % nb, 3, marks);
    exhaust(lcodes, left, rcodes, right, marks);
}
