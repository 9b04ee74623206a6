// Gives the macrostates that are left their new numbers with no memory beside the lists: first in bits 48 to 63 of their codes, where their
// marks stood, then in the transitions, and last by their places.
ghost use Rattle.std.specs.Prelude.{◌≡◌, true, ◌++◌, ◌-◌, ◌/◌, ◌%◌, ◌^◌, ◌<◌, length, get_or, replicate};
ghost use Rattle.theory.specs.Run.{source_of, target_of};
ghost use Rattle.trim_spec.specs.Graph.{Inside};
ghost use Rattle.trim_spec.specs.Trimmed.{new_number, is_left_lem};
ghost use Rattle.trim_spec.specs.Tagged.{highs, lows, Numbered, compacted, rewrite, rewritten};

use codes::{CODE_BITS, CODE_MASK, letter_of, pack_transition, source_of, target_of};

// ---- numbers in the codes

// How many codes are left.
pub fn count_left(codes: &[u64]) -> usize
    ensures { result ≡ new_number (highs codes.now) (length codes.now) }
{
    let mut k = 0;
    for c in codes {
        if *c >> CODE_BITS != 0 {
            k += 1;
        }
    }
    k
}

// A code that carries the number k.
fn carrying(c: u64, k: u64) -> u64
    requires { k < 65536 }
    ensures { (result / 2 ^ 48 ≡ k) × (result % 2 ^ 48 ≡ c % 2 ^ 48) }
{
    (c & CODE_MASK) + (k << CODE_BITS)
}

// Puts in place of each mark that is not 0 the code's new number and 1 more. Not all codes are left, so that 16 bits suffice.
pub fn number(codes: &mut [u64])
    requires { new_number (highs codes.old) (length codes.old) < 65536 }
    ensures { Numbered (highs codes.old) (highs codes.new)
        × (lows codes.new ≡ lows codes.old) }
{
    let mut k: u64 = 0;
    for c in codes.iter_mut() {
        if *c >> CODE_BITS != 0 {
            k += 1;
            *c = carrying(*c, k);
        }
    }
}

// ---- transitions

// Whether both ends of a transition are left.
fn is_left(codes: &[u64], t: u64) -> bool
    requires { (source_of t < length codes.now) × (target_of t < length codes.now) }
    ensures { result ≡ is_left_lem (highs codes.now) t }
{
    if codes[source_of(t)] >> CODE_BITS == 0 {
        return false;
    }
    codes[target_of(t)] >> CODE_BITS != 0
}

// A transition by the new numbers of its ends.
fn rewritten_one(codes: &[u64], t: u64) -> u64
    requires { (source_of t < length codes.now)
        × (target_of t < length codes.now)
        × (is_left_lem (highs codes.now) t ≡ true) }
    ensures { result ≡ rewrite (highs codes.now) t }
{
    let source = (codes[source_of(t)] >> CODE_BITS) as usize - 1;
    let target = (codes[target_of(t)] >> CODE_BITS) as usize - 1;
    pack_transition(source, letter_of(t), target)
}

// Moves the transitions whose ends are left to the front, rewritten, and zeros behind them; answers how many there are.
pub fn rewrite_all(codes: &[u64], transitions: &mut [u64]) -> usize
    requires { Inside (length codes.now) transitions.old }
    ensures { let l = rewritten (highs codes.now) transitions.old in
        (result ≡ length l) × (transitions.new ≡ l ++ replicate (length transitions.old - length l) 0) }
{
    let mut w = 0;
    for i in 0..transitions.len() {
        let t = transitions[i];
        if is_left(codes, t) {
            transitions[w] = rewritten_one(codes, t);
            w += 1;
        }
    }
    slice_search::zero_from(transitions, w);
    w
}

// ---- codes

// A code without what it carries.
fn without_number(c: u64) -> u64
    ensures { result ≡ c % 2 ^ 48 }
{
    c & CODE_MASK
}

// Moves the codes that are left to the front, without what they carry, and zeros behind them; answers how many there are.
pub fn compact(codes: &mut [u64]) -> usize
    ensures { let l = compacted codes.old in
        (result ≡ length l) × (codes.new ≡ l ++ replicate (length codes.old - length l) 0) }
{
    let mut w = 0;
    for i in 0..codes.len() {
        let c = codes[i];
        if c >> CODE_BITS != 0 {
            codes[w] = without_number(c);
            w += 1;
        }
    }
    slice_search::zero_from(codes, w);
    w
}
