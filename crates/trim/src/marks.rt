// Finds the macrostates that matter, which trimming keeps. The mark of each stands in bits 48 to 63 of its code, which no code uses: 0 for
// one that is out, 1 for one that is in, 2 for one in and accepting, 2 more while a walk to an accepting one is known.
ghost use Rattle.std.specs.Prelude.{◌≡◌, ◌&&◌, ℕ, ◌+◌, ◌*◌, ◌/◌, ◌%◌, ◌^◌, ◌≤◌, ◌<◌, ltb, length, get_or};
ghost use Rattle.graph_walks.specs.Walks.{Solved};
ghost use Rattle.graph_walks.specs.Marks.{marked, is_new, settled, goes_out_lem};
ghost use Rattle.graph_walks.specs.Rounds.{Stable, Settling, SolveRound};
ghost use Rattle.trim_spec.specs.Graph.{Step, Inside};
ghost use Rattle.trim_spec.specs.Trimmed.{flag_of_lem, flags, swept, is_new_in, live_marks};
ghost use Rattle.trim_spec.specs.Tagged.{highs, lows};

use codes::{CODE_BITS, CODE_MASK, is_accepting, source_of, target_of};

// ---- sweeps

// Whether a number with the mark v is in and not marked.
fn is_free(v: u64) -> bool
    ensures { result ≡ (ltb 0 v && ltb v 3) }
{
    if v == 1 {
        return true;
    }
    v == 2
}

// Marks x if it is in and y is accepting or marked; whether others may be marked for that.
fn mark(codes: &mut [u64], x: usize, y: usize) -> bool
    requires { (x < length codes.old) × (y < length codes.old) }
    ensures { (highs codes.new ≡ marked x y (highs codes.old))
        × (lows codes.new ≡ lows codes.old)
        × (result ≡ is_new x y (highs codes.old)) }
{
    let c = codes[x];
    let v = c >> CODE_BITS;
    if !is_free(v) {
        return false;
    }
    if codes[y] >> CODE_BITS < 2 {
        return false;
    }
    codes[x] = c + 0x0002_0000_0000_0000;
    v == 1
}

// One sweep over the transitions, as they are sorted; how many it marked for which others may be marked. With a flag in place of the
// count, and two tests in place of `is_free`, the compiler makes one loop of this one and that of `sweep_out`, and both take twice as long.
fn sweep(codes: &mut [u64], transitions: &[u64]) -> usize
    requires { Inside (length codes.old) transitions.now }
    ensures { (highs codes.new ≡ swept transitions.now (highs codes.old))
        × (lows codes.new ≡ lows codes.old)
        × (ltb 0 result ≡ is_new_in transitions.now (highs codes.old)) }
{
    let mut news = 0;
    for t in transitions {
        if mark(codes, source_of(*t), target_of(*t)) {
            news += 1;
        }
    }
    news
}

// Sweeps until nothing is new: the numbers with a walk to an accepting one are marked.
fn sweep_out(codes: &mut [u64], transitions: &[u64])
    requires { Inside (length codes.old) transitions.now × ((x : ℕ) → get_or (highs codes.old) x 0 ≤ 2) }
    ensures { Stable (Step transitions.now) (highs codes.old) (highs codes.new)
        × (lows codes.new ≡ lows codes.old) }
{
    // A while: it sweeps until nothing is new.
    while 0 < sweep(codes, transitions) {}
}

// ---- rounds

// A code after settling: its mark is 0 if it was not marked, else 2 less.
fn settled_code(c: u64) -> u64
    ensures { (result / 2 ^ 48 ≡ settled (c / 2 ^ 48)) × (result % 2 ^ 48 ≡ c % 2 ^ 48) }
{
    if c >> CODE_BITS < 3 {
        return c & CODE_MASK;
    }
    c - 0x0002_0000_0000_0000
}

// Whether settling takes out an accepting number, c being its code.
fn goes_out(c: u64) -> bool
    ensures { result ≡ goes_out_lem (c / 2 ^ 48) }
{
    c >> CODE_BITS == 2
}

// Takes out the numbers that are not marked, and the marks off the others; whether an accepting one went out.
fn settle(codes: &mut [u64]) -> bool
    ensures { Settling 0 (length (highs codes.old)) (highs codes.old) (highs codes.new) result
        × (lows codes.new ≡ lows codes.old) }
{
    let mut changed = false;
    for c in codes.iter_mut() {
        if goes_out(*c) {
            changed = true;
        }
        *c = settled_code(*c);
    }
    changed
}

// Takes out the numbers without a walk to an accepting one; whether there were accepting ones among them.
fn solve_round(codes: &mut [u64], transitions: &[u64]) -> bool
    requires { Inside (length codes.old) transitions.now × ((x : ℕ) → get_or (highs codes.old) x 0 ≤ 2) }
    ensures { SolveRound (Step transitions.now) (highs codes.old) (highs codes.new) result
        × (lows codes.new ≡ lows codes.old) }
{
    sweep_out(codes, transitions);
    settle(codes)
}

// Takes out numbers until from each that is left a walk leads to an accepting one that is left.
fn solve(codes: &mut [u64], transitions: &[u64])
    requires { Inside (length codes.old) transitions.now × ((x : ℕ) → get_or (highs codes.old) x 0 ≤ 2) }
    ensures { Solved (Step transitions.now) (highs codes.old) (highs codes.new)
        × (lows codes.new ≡ lows codes.old) }
{
    // A while: a round follows while one took out an accepting number.
    while solve_round(codes, transitions) {}
}

// ---- the marks of a table

// A code with its mark at first: 2 if it is accepting, else 1.
fn flagged(c: u64) -> u64
    requires { c < 2 ^ 48 }
    ensures { result ≡ c + flag_of_lem c * 2 ^ 48 }
{
    if is_accepting(c) {
        return c + 0x0002_0000_0000_0000;
    }
    c + 0x0001_0000_0000_0000
}

// Gives every code its mark at first.
fn flag(codes: &mut [u64])
    requires { (x : ℕ) → get_or codes.old x 0 < 2 ^ 48 }
    ensures { (highs codes.new ≡ flags codes.old) × (lows codes.new ≡ codes.old) }
{
    for c in codes.iter_mut() {
        *c = flagged(*c);
    }
}

// Marks the codes of a table: those that matter are in, and no others.
pub fn mark_live(codes: &mut [u64], transitions: &[u64])
    requires { Inside (length codes.old) transitions.now × ((x : ℕ) → get_or codes.old x 0 < 2 ^ 48) }
    ensures { (highs codes.new ≡ live_marks codes.old transitions.now)
        × (lows codes.new ≡ codes.old) }
{
    flag(codes);
    solve(codes, transitions);
}
