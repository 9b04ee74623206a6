// Start pairs, looked for among the pairs of cores of two tagged tables alone: a run begins where K and k are 0, and of the numbers of a
// core that one is the first.

#![tactic(auto)]

ghost use Rattle.std.specs.Prelude.{◌≡◌, not, ◌&&◌, ◌+◌, ◌*◌, ◌<◌, length, get_or};
ghost use Rattle.sets.specs.Masks.{bit};
ghost use Rattle.theory.specs.Macrostate.{begun};
ghost use Rattle.stricter_laws.specs.Tests.{starts_in};
ghost use Rattle.stricter_spec.specs.Steps.{stands_in, OnlyCores};
ghost use Rattle.stricter_starts.specs.Starts.{RowStart, FirstStart};

use codes::{CODE_BITS, is_first, is_initial};
use slice_search::bytes::next_set;

// Whether a run may begin at a code if its set lacks the initial state: K is 0 and k is 0.
#[tactic(auto, using(codes::proofs::Starts::held, codes::proofs::Starts::lacking), unfolding(theory::specs::Macrostate::begun))]
fn begins_lacking(code: u64, initial: u32) -> bool
    requires { initial < 8 }
    ensures { result ≡ begun (λ c. not (bit c initial)) code }
{
    if (code >> initial) & 1 == 1 {
        return false;
    }
    is_first(code)
}

// Whether number i stands for its core and a run may begin at it if its set holds the initial state.
#[tactic(auto, unfolding(stricter_spec::specs::Steps::stands_in))]
fn begins_here(codes: &[u64], i: usize, initial: u32) -> bool
    requires { (i < length codes.now) × (initial < 8) }
    ensures { result ≡ (stands_in codes.now i && begun (λ c. bit c initial) (get_or codes.now i 0)) }
{
    let code = codes[i];
    if (code >> CODE_BITS) as usize != i {
        return false;
    }
    is_initial(code, initial)
}

// The first pair of number i that is in and where runs of both tables may begin; the end of its row where there is none.
fn start_in_row(
    acodes: &[u64],
    bcodes: &[u64],
    ainitial: u32,
    binitial: u32,
    i: usize,
    marks: &[u8],
) -> usize
    requires { (length marks.now ≡ length acodes.now * length bcodes.now) × OnlyCores acodes.now (length bcodes.now) marks.now
        × (i < length acodes.now) × (ainitial < 8) × (binitial < 8) }
    ensures { RowStart (starts_in acodes.now bcodes.now (λ c. bit c ainitial) (λ c. not (bit c binitial)))
        marks.now (i * length bcodes.now) (i * length bcodes.now + length bcodes.now) result }
{
    let row = i * bcodes.len();
    let end = row + bcodes.len();
    if !begins_here(acodes, i, ainitial) {
        return end;
    }
    let mut x = next_set(marks, row, end);
    // A while: the pair jumps to the next one that is in.
    while x < end {
        if begins_lacking(bcodes[x - row], binitial) {
            return x;
        }
        x = next_set(marks, x + 1, end);
    }
    x
}

// The first such pair of all; the number of pairs where there is none.
pub fn first_start(
    acodes: &[u64],
    bcodes: &[u64],
    ainitial: u32,
    binitial: u32,
    marks: &[u8],
) -> usize
    requires { (length marks.now ≡ length acodes.now * length bcodes.now) × OnlyCores acodes.now (length bcodes.now) marks.now
        × (ainitial < 8) × (binitial < 8) }
    ensures { FirstStart (starts_in acodes.now bcodes.now (λ c. bit c ainitial) (λ c. not (bit c binitial)))
        marks.now result }
{
    for i in 0..acodes.len() {
        let end = i * bcodes.len() + bcodes.len();
        let x = start_in_row(acodes, bcodes, ainitial, binitial, i, marks);
        if x < end {
            return x;
        }
    }
    marks.len()
}
