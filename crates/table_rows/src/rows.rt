// Row 15: a lent table is tried as a whole, so that each end of a transition is the number of a code.
ghost use Rattle.std.specs.Prelude.{◌≡◌};
ghost use Rattle.refusals.specs.Rows.{first_refusal};
ghost use Rattle.table_lent.specs.Lent.{in_both, is_faulty_lem, table_rows_lem};

use crate::checks::{has_astray, has_high, is_ascending};
use refusals::Refusal;
use table_lent::count;

// Whether the numbers of a table have a fault that row 15 names, for a rule of s letters.
fn is_faulty(s: usize, codes: &[u64], codebytes: &[u8], moves: &[u64], movebytes: &[u8]) -> bool
    ensures { result
        ≡ is_faulty_lem s (in_both codes.now codebytes.now).numbers
        (in_both moves.now movebytes.now).numbers }
{
    let n = count(codes, codebytes);
    if 65536 < n {
        return true;
    }
    if !is_ascending(codes, codebytes) {
        return true;
    }
    if !is_ascending(moves, movebytes) {
        return true;
    }
    if has_high(codes, codebytes) {
        return true;
    }
    has_astray(moves, movebytes, n, s)
}

// Row 15, if it refuses the table for a rule of s letters.
#[tactic(auto, unfolding(refusals::specs::Rows::first_refusal, table_lent::specs::Lent::table_rows_lem, table_lent::specs::Lent::in_both))]
pub fn table_row(
    s: usize,
    codes: &[u64],
    codebytes: &[u8],
    moves: &[u64],
    movebytes: &[u8],
) -> Result<(), Refusal>
    ensures { result
        ≡ first_refusal (table_rows_lem s (in_both codes.now codebytes.now) (in_both moves.now movebytes.now)) }
{
    if codebytes.len() % 8 != 0 || movebytes.len() % 8 != 0 {
        return Err(Refusal::Table);
    }
    if is_faulty(s, codes, codebytes, moves, movebytes) {
        return Err(Refusal::Table);
    }
    Ok(())
}
