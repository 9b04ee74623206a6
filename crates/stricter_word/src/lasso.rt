// The word that a no of the comparison shows: two tables accept it. Its letters are those of a way from a start pair back to it, or of ways
// to a pair u accepting on the first side, on to a pair v accepting on the second, and back to u.
ghost use Rattle.std.specs.Prelude.{◌≡◌, true, false, ◌&&◌, ℕ, ◌+◌, ◌*◌, ◌/◌, ◌%◌, ◌≤◌, ◌<◌, ltb, length, get_or};
ghost use Rattle.theory.specs.Run.{source_of};
ghost use Rattle.stricter_spec.specs.Search.{Searchable};
ghost use Rattle.stricter_laws.specs.Pairs.{PairStep, PairEdge};
ghost use Rattle.stricter_laws.specs.Sound.{BothSound};
ghost use Rattle.stricter_laws.specs.Tests.{accepts_in};
ghost use Rattle.stricter_laws.specs.Forest.{kind_in, SameIn, Reaches, Back, ParentIs};
ghost use Rattle.stricter_laws.specs.Routes.{RouteAt, Turning};
ghost use Rattle.stricter_word.specs.Tables.{Suits, SourceIs, Way, Round, LassoReady, LassoFound};

use crate::explore::explore;
use codes::{is_accepting, letter_of, source_of, target_of};
use slice_search::bytes::next_set;
use stricter_spec::Found;

// ---- the way back

// Whether a transition goes over the letter to the target from a number that is accepting, or from one that is not.
fn suits(codes: &[u64], t: u64, letter: usize, target: usize, accepting: bool) -> bool
    requires { source_of t < length codes.now }
    ensures { Suits codes.now t letter target accepting result }
{
    if letter_of(t) != letter {
        return false;
    }
    if target_of(t) != target {
        return false;
    }
    if is_accepting(codes[source_of(t)]) {
        return accepting;
    }
    !accepting
}

// Where a transition over the letter to the target comes from.
fn source_for(codes: &[u64], moves: &[u64], letter: usize, target: usize, accepting: bool) -> usize
    requires { Searchable codes.now moves.now }
    ensures { SourceIs codes.now moves.now letter target accepting result }
{
    for t in moves {
        if suits(codes, *t, letter, target, accepting) {
            return source_of(*t);
        }
    }
    0
}

// The pair from which the pair y was met, whose byte is v.
fn parent(
    lcodes: &[u64],
    left: &[u64],
    rcodes: &[u64],
    right: &[u64],
    origin: usize,
    y: usize,
    v: u8,
) -> usize
    requires { Searchable lcodes.now left.now × Searchable rcodes.now right.now
        × (y < length lcodes.now * length rcodes.now) }
    ensures { ParentIs (PairStep (length rcodes.now) left.now right.now)
        (kind_in lcodes.now rcodes.now) origin y v result }
{
    if v < 64 {
        return origin;
    }
    let nb = rcodes.len();
    let letter = (v / 4 % 16) as usize;
    let i = source_for(lcodes, left, letter, y / nb, v / 2 % 2 == 1);
    let j = source_for(rcodes, right, letter, y % nb, v % 2 == 1);
    i * nb + j
}

// The number of steps from the origin to the pair y.
fn way_length(
    lcodes: &[u64],
    left: &[u64],
    rcodes: &[u64],
    right: &[u64],
    origin: usize,
    marks: &[u8],
    y: usize,
) -> usize
    requires searchable { Searchable lcodes.now left.now × Searchable rcodes.now right.now
        × (length marks.now ≡ length lcodes.now * length rcodes.now) }
    requires by_index { (d : ℕ) × (d ≤ length marks.now) × Back (PairStep (length rcodes.now) left.now right.now)
        (kind_in lcodes.now rcodes.now) origin marks.now y d }
    ensures { (result ≤ length marks.now)
        × Back (PairStep (length rcodes.now) left.now right.now)
        (kind_in lcodes.now rcodes.now) origin marks.now y result }
{
    let mut x = y;
    let mut k = 1;
    // A while: it follows the steps back to the origin.
    while 64 <= marks[x] % 128 {
        x = parent(lcodes, left, rcodes, right, origin, x, marks[x] % 128);
        k += 1;
    }
    k
}

// Writes the letters of the n steps from the origin to the pair y from place `at` on.
fn write_way(
    lcodes: &[u64],
    left: &[u64],
    rcodes: &[u64],
    right: &[u64],
    origin: usize,
    marks: &[u8],
    y: usize,
    at: usize,
    n: usize,
    word: &mut [u8],
)
    requires searchable { Searchable lcodes.now left.now × Searchable rcodes.now right.now
        × (length marks.now ≡ length lcodes.now * length rcodes.now) × (at + n ≤ length word.old) }
    requires back { Back (PairStep (length rcodes.now) left.now right.now) (kind_in lcodes.now rcodes.now) origin marks.now y n }
    ensures { RouteAt (PairStep (length rcodes.now) left.now right.now)
        origin y at n word.old word.new }
{
    let mut x = y;
    for k in (0..n).rev() {
        let v = marks[x] % 128;
        word[at + k] = v / 4 % 16;
        x = parent(lcodes, left, rcodes, right, origin, x, v);
    }
}

// Finds a way from one pair to another and writes its letters from place `at` on; how many they are.
fn write_between(
    lcodes: &[u64],
    left: &[u64],
    rcodes: &[u64],
    right: &[u64],
    from: usize,
    to: usize,
    marks: &mut [u8],
    at: usize,
    word: &mut [u8],
) -> usize
    requires searchable { Searchable lcodes.now left.now × Searchable rcodes.now right.now
        × (length marks.old ≡ length lcodes.now * length rcodes.now) × (from < length marks.old)
        × (at + length marks.old ≤ length word.old) }
    requires reaches { Reaches (PairStep (length rcodes.now) left.now right.now) marks.old from to }
    ensures { Way (PairStep (length rcodes.now) left.now right.now) from to at result
        marks.old marks.new word.old word.new }
{
    explore(lcodes, left, rcodes, right, from, marks);
    let n = way_length(lcodes, left, rcodes, right, from, marks, to);
    write_way(lcodes, left, rcodes, right, from, marks, to, at, n, word);
    n
}

// ---- the cycle

// Whether a pair is met and accepting on a side: the second, or the first.
fn serves(lcodes: &[u64], rcodes: &[u64], second: bool, marks: &[u8], x: usize) -> bool
    requires { (length marks.now ≡ length lcodes.now * length rcodes.now) × (x < length marks.now) }
    ensures { result ≡ ltb 1 (get_or marks.now x 0) && accepts_in lcodes.now rcodes.now second x }
{
    if marks[x] < 2 {
        return false;
    }
    let nb = rcodes.len();
    if second {
        return is_accepting(rcodes[x % nb]);
    }
    is_accepting(lcodes[x / nb])
}

// The lowest pair that is met and accepting on a side.
fn lowest(lcodes: &[u64], rcodes: &[u64], second: bool, marks: &[u8]) -> usize
    requires marks_len { length marks.now ≡ length lcodes.now * length rcodes.now }
    requires by_index { (x : ℕ) × (1 < get_or marks.now x 0) × (accepts_in lcodes.now rcodes.now second x ≡ true) }
    ensures { (1 < get_or marks.now result 0) × (accepts_in lcodes.now rcodes.now second result ≡ true) }
{
    let mut x = next_set(marks, 0, marks.len());
    // A while: the place jumps to the next byte that is set.
    while x < marks.len() {
        if serves(lcodes, rcodes, second, marks, x) {
            return x;
        }
        x = next_set(marks, x + 1, marks.len());
    }
    0
}

// The two pairs of a cycle.
#[derive(Clone, Copy)]
struct Turn {
    u: usize,
    v: usize,
}

// A pair u that is accepting on the first side and a pair v that is accepting on the second, each reached from the other, and u from the
// start: where v does not lead back to u, the next u is the lowest that v leads to.
fn find_turn(
    lcodes: &[u64],
    left: &[u64],
    rcodes: &[u64],
    right: &[u64],
    start: usize,
    marks: &mut [u8],
) -> Turn
    requires { Searchable lcodes.now left.now × Searchable rcodes.now right.now
        × (length marks.old ≡ length lcodes.now * length rcodes.now) × (0 < get_or marks.old start 0)
        × BothSound (PairEdge (length rcodes.now) left.now right.now) (accepts_in lcodes.now rcodes.now false)
        (accepts_in lcodes.now rcodes.now true) marks.old }
    ensures { SameIn marks.old marks.new
        × Turning (PairStep (length rcodes.now) left.now right.now)
        (accepts_in lcodes.now rcodes.now false) (accepts_in lcodes.now rcodes.now true)
        start marks.old result.u result.v }
{
    explore(lcodes, left, rcodes, right, start, marks);
    let mut u = lowest(lcodes, rcodes, false, marks);
    loop {
        explore(lcodes, left, rcodes, right, u, marks);
        let v = lowest(lcodes, rcodes, true, marks);
        explore(lcodes, left, rcodes, right, v, marks);
        if 1 < marks[u] {
            return Turn { u: u, v: v };
        }
        u = lowest(lcodes, rcodes, false, marks);
    }
}

// ---- the word

// A word that both tables accept, beginning at the start pair, by three ways: its letters are written at the start of the word slice.
fn find_lasso(
    lcodes: &[u64],
    left: &[u64],
    rcodes: &[u64],
    right: &[u64],
    start: usize,
    word: &mut [u8],
    marks: &mut [u8],
) -> Found
    requires { LassoReady lcodes.now left.now rcodes.now right.now start word.old marks.old }
    ensures { LassoFound lcodes.now left.now rcodes.now right.now start
        word.old word.new result }
{
    let t = find_turn(lcodes, left, rcodes, right, start, marks);
    let u = t.u;
    let v = t.v;
    let lead = write_between(lcodes, left, rcodes, right, start, u, marks, 0, word);
    let onto = write_between(lcodes, left, rcodes, right, u, v, marks, lead, word);
    let back = write_between(lcodes, left, rcodes, right, v, u, marks, lead + onto, word);
    Found::Word(lead, onto + back)
}

// Writes the letters of a way from the start pair back to it to the start of the word slice, if the pair is accepting on both sides: how
// many they are, 0 where there is none.
fn write_round(
    lcodes: &[u64],
    left: &[u64],
    rcodes: &[u64],
    right: &[u64],
    start: usize,
    marks: &mut [u8],
    word: &mut [u8],
) -> usize
    requires { Searchable lcodes.now left.now × Searchable rcodes.now right.now
        × (length marks.old ≡ length lcodes.now * length rcodes.now) × (start < length marks.old)
        × (length marks.old ≤ length word.old) }
    ensures { Round (PairStep (length rcodes.now) left.now right.now)
        (accepts_in lcodes.now rcodes.now false) (accepts_in lcodes.now rcodes.now true) start result
        marks.old marks.new word.old word.new }
{
    explore(lcodes, left, rcodes, right, start, marks);
    if !serves(lcodes, rcodes, false, marks, start) {
        return 0;
    }
    if !serves(lcodes, rcodes, true, marks, start) {
        return 0;
    }
    let n = way_length(lcodes, left, rcodes, right, start, marks, start);
    write_way(lcodes, left, rcodes, right, start, marks, start, 0, n, word);
    n
}

// A word that both tables accept, beginning at the start pair: its letters are written at the start of the word slice. Where the start
// pair leads back to itself, it is that way for ever.
pub fn shared_word(
    lcodes: &[u64],
    left: &[u64],
    rcodes: &[u64],
    right: &[u64],
    start: usize,
    word: &mut [u8],
    marks: &mut [u8],
) -> Found
    requires { LassoReady lcodes.now left.now rcodes.now right.now start word.old marks.old }
    ensures { LassoFound lcodes.now left.now rcodes.now right.now start
        word.old word.new result }
{
    let n = write_round(lcodes, left, rcodes, right, start, marks, word);
    if 0 < n {
        return Found::Word(0, n);
    }
    find_lasso(lcodes, left, rcodes, right, start, word, marks)
}
