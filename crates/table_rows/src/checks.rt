// What row 15 asks of the numbers of a lent table, test by test: both lists ascend, codes have no bit above 47, transitions stay in range.
ghost use Rattle.std.specs.Prelude.{◌≡◌};
ghost use Rattle.sets.specs.Lists.{any_of};
ghost use Rattle.slice_search.specs.Places.{ascends};
ghost use Rattle.table_lent.specs.Lent.{in_both, is_high, is_astray_lem};

use codes::{CODE_BITS, letter_of, source_of, target_of};
use table_lent::{count, element};

// Whether the numbers ascend strictly.
pub fn is_ascending(words: &[u64], bytes: &[u8]) -> bool
    ensures { result ≡ ascends (in_both words.now bytes.now).numbers }
{
    let n = count(words, bytes);
    if n == 0 {
        return true;
    }
    let mut last = element(words, bytes, 0);
    for i in 1..n {
        let x = element(words, bytes, i);
        if x <= last {
            return false;
        }
        last = x;
    }
    true
}

// Whether a code has a bit above 47.
pub fn has_high(words: &[u64], bytes: &[u8]) -> bool
    ensures { result ≡ any_of (in_both words.now bytes.now).numbers is_high }
{
    for i in 0..count(words, bytes) {
        if element(words, bytes, i) >> CODE_BITS != 0 {
            return true;
        }
    }
    false
}

// Whether a transition has its source, letter or target out of range, with n codes and s letters.
fn is_astray(t: u64, n: usize, s: usize) -> bool
    ensures { result ≡ is_astray_lem n s t }
{
    if n <= source_of(t) {
        return true;
    }
    if s <= letter_of(t) {
        return true;
    }
    if n <= target_of(t) {
        return true;
    }
    false
}

// Whether one of the transitions has.
pub fn has_astray(words: &[u64], bytes: &[u8], n: usize, s: usize) -> bool
    ensures { result ≡ any_of (in_both words.now bytes.now).numbers (is_astray_lem n s) }
{
    for i in 0..count(words, bytes) {
        if is_astray(element(words, bytes, i), n, s) {
            return true;
        }
    }
    false
}
