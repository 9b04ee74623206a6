// The transitions of a number, letter by letter: a step of a pair takes one letter on both sides, so those of one number are looked up by
// the letter of the other.
ghost use Rattle.std.specs.Prelude.{◌+◌, ◌<◌};
ghost use Rattle.sets.specs.Lists.{Ascending};
ghost use Rattle.slice_search.specs.LowParts.{low_parts, LowBits};
ghost use Rattle.stricter_laws.specs.Pairs.{RowCut};

use slice_search::place_low;

// Where the transitions of number i over each letter begin, by their bits in the mask.
pub fn cut_low(moves: &[u64], mask: u64, i: usize) -> [usize; 17]
    requires { LowBits mask × Ascending (low_parts (mask + 1) moves.now) × (i < 65536) }
    ensures { RowCut (low_parts (mask + 1) moves.now) i result }
{
    let mut cuts = [0usize; 17];
    for (a, cut) in cuts.iter_mut().enumerate() {
        let key = i * 0x0100_0000 + a * 0x0001_0000;
        *cut = place_low(moves, mask, key as u64);
    }
    cuts
}

// Where they begin by all their bits.
pub fn cut_row(moves: &[u64], i: usize) -> [usize; 17]
    requires { Ascending moves.now × (i < 65536) }
    ensures { RowCut moves.now i result }
{
    cut_low(moves, 0xffff_ffff_ffff_ffff, i)
}
