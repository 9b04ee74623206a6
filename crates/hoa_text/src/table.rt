// A table that is lent in bytes, read for its text: a number of a list, and the transitions of a macrostate, which stand together since
// transitions ascend.
ghost use Rattle.std.specs.Prelude.{◌≡◌, ◌<◌, ◌≤◌, length, get_or};
ghost use Rattle.table_lent.specs.Lent.{words_in};
ghost use Rattle.hoa_laws.specs.Cursor.{Stretch};

use codes::{source_of, word_at};

// The number at place i.
pub fn number_at(bytes: &[u8], i: usize) -> u64
    requires { i < length (words_in bytes.now) }
    ensures { result ≡ get_or (words_in bytes.now) i 0 }
{
    word_at(bytes, i * 8)
}

// Where the transitions from number i end that begin at place j.
pub fn stretch_end(moves: &[u8], i: usize, j: usize) -> usize
    requires { j ≤ length (words_in moves.now) }
    ensures { Stretch (words_in moves.now) i j result }
{
    let m = moves.len() / 8;
    for k in j..m {
        if source_of(number_at(moves, k)) != i {
            return k;
        }
    }
    m
}
