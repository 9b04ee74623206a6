// Bytes of a slice: one value for all of them, and the places of those that are not 0, eight bytes at a time where all are.
ghost use Rattle.std.specs.Prelude.{◌≡◌, true, false, ◌≤◌, ◌<◌, length, replicate};
ghost use Rattle.slice_search.specs.Zeros.{Zeros, NextSet, NextBetween};

use codes::word_at;

// Every byte becomes v.
pub fn fill_with(xs: &mut [u8], v: u8)
    ensures { xs.new ≡ replicate (length xs.old) v }
{
    xs.fill(v);
}

// A place from `from` on, up to `to`, before which all bytes are 0: it steps by eight.
fn skip_words(xs: &[u8], from: usize, to: usize) -> usize
    requires { (from ≤ to) × (to ≤ length xs.now) }
    ensures { Zeros xs.now from result × (result ≤ to) }
{
    let mut i = from;
    // A while: it steps by eight.
    while 8 <= to - i {
        if word_at(xs, i) != 0 {
            return i;
        }
        i += 8;
    }
    i
}

// The first place from `from` on, below `to`, whose byte is not 0; `to` where there is none.
pub fn next_set(xs: &[u8], from: usize, to: usize) -> usize
    requires { (from ≤ to) × (to ≤ length xs.now) }
    ensures { NextSet xs.now from to result }
{
    for i in skip_words(xs, from, to)..to {
        if xs[i] != 0 {
            return i;
        }
    }
    to
}

// Whether the byte v is `low` or more and below `high`.
fn is_between(v: u8, low: u8, high: u8) -> bool
    ensures { (result ≡ true → (low ≤ v) × (v < high)) × (result ≡ false → low ≤ v → high ≤ v) }
{
    if v < low {
        return false;
    }
    v < high
}

// The first place from `from` on, below `to`, whose byte is `low` or more and below `high`; `to` where there is none.
pub fn next_between(xs: &[u8], from: usize, to: usize, low: u8, high: u8) -> usize
    requires { (from ≤ to) × (to ≤ length xs.now) × (0 < low) }
    ensures { NextBetween low high xs.now from to result }
{
    let mut x = next_set(xs, from, to);
    // A while: the place jumps to the next byte that is set.
    while x < to {
        if is_between(xs[x], low, high) {
            return x;
        }
        x = next_set(xs, x + 1, to);
    }
    x
}
