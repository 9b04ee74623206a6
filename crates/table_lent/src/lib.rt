// Tables as they are lent: lists of 64-bit numbers, in elements or in bytes, 8 a number, low byte first. Every function takes both parts
// of a list, the elements and then the bytes, of which one is empty: so the code above reads both forms alike.

#![tactic(auto)]

ghost use Rattle.std.specs.Prelude.{◌≡◌, ◌<◌, length, get_or};
ghost use Rattle.table_lent.specs.Lent.{in_both};

use codes::word_at;

// How many numbers there are.
pub fn count(words: &[u64], bytes: &[u8]) -> usize
    ensures { result ≡ length (in_both words.now bytes.now).numbers }
{
    words.len() + bytes.len() / 8
}

// The number at place i.
pub fn element(words: &[u64], bytes: &[u8], i: usize) -> u64
    requires { i < length (in_both words.now bytes.now).numbers }
    ensures { result ≡ get_or (in_both words.now bytes.now).numbers i 0 }
{
    let n = words.len();
    if i < n {
        return words[i];
    }
    word_at(bytes, (i - n) * 8)
}
