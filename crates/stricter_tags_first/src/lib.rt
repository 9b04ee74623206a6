// The tag of a code: the first number with its core, which stands for the core, so that macrostates of one core are treated once.

#![tactic(auto)]

ghost use Rattle.std.specs.Prelude.{◌≡◌, ℕ, ◌+◌, ◌/◌, ◌%◌, ◌≤◌, ◌<◌, length, get_or, take};
ghost use Rattle.sets.specs.Lists.{Ascending};
ghost use Rattle.stricter_spec.specs.Tags.{first_of, TaggedCodes};

use codes::{ABOVE_CODE, ABOVE_CORE, CORE_BITS, CORE_MASK};
use slice_search::place;

// The first number with the core of number i, in codes that have no tag up to i. Codes ascend, so those of one core stand in the order of
// the pairs K + 16 k above it, and each pair below that of i is looked up.
fn first_of(codes: &[u64], i: usize, components: u64) -> usize
    requires { (i < length codes.now) × Ascending (take (i + 1) codes.now)
        × ((j : ℕ) → j < i → get_or codes.now j 0 / 1099511627776 % 16 < components) }
    ensures { result ≡ first_of (take (i + 1) codes.now) i }
{
    let core = codes[i] & CORE_MASK;
    let top = codes[i] >> CORE_BITS;
    for h in 0..top {
        if components <= (h & 15) {
            continue;
        }
        let key = core + h * ABOVE_CORE;
        let p = place(codes, i, key);
        if codes[p] == key {
            return p;
        }
    }
    i
}

// From the last code down: those below have no tag yet.
pub fn tag_codes(codes: &mut [u64], components: u64)
    requires { (length codes.old ≤ 65536) × Ascending codes.old
        × ((j : ℕ) → j < length codes.old
        → (get_or codes.old j 0 < 281474976710656) × (get_or codes.old j 0 / 1099511627776 % 16 < components)) }
    ensures { TaggedCodes codes.old codes.new }
{
    for i in (0..codes.len()).rev() {
        let first = first_of(codes, i, components);
        codes[i] += first as u64 * ABOVE_CODE;
    }
}
