// The judge of words on a lent table, for a rule of s letters and its initial state: the lowest number where an accepting run begins.

#![tactic(auto)]

pub mod starts;

ghost use Rattle.std.specs.Prelude.{◌<◌};
ghost use Rattle.sets.specs.Masks.{bit};
ghost use Rattle.table_lent.specs.Lent.{in_both};
ghost use Rattle.table_call.specs.Calls.{TableCalled};

use crate::starts::search;
use refusals::Refusal;
use rule_entries::Head;
use slice_search::bytes::fill_with;
use table_lent::count;
use table_rows::rows::table_row;
use word_rows::word_row;

// The answer for a table that is lent in elements or in bytes, and a rule of s letters whose initial state is given.
// Refused by rows 12 to 16, and scratch is then unchanged; else it is zero throughout afterwards. None where no accepting run begins.
pub fn judge_lent(
    h: Head,
    lead: &[u8],
    cycle: &[u8],
    codes: &[u64],
    codebytes: &[u8],
    moves: &[u64],
    movebytes: &[u8],
    scratch: &mut [u8],
) -> Result<Option<usize>, Refusal>
    requires { h.initial < 8 }
    ensures { TableCalled h.s (λ c. bit c h.initial) lead.now cycle.now
        (in_both codes.now codebytes.now) (in_both moves.now movebytes.now)
        scratch.old scratch.new result }
{
    word_row(h.s, lead, cycle)?;
    table_row(h.s, codes, codebytes, moves, movebytes)?;
    let n = count(codes, codebytes);
    let used = n * (lead.len() + cycle.len());
    if scratch.len() < used {
        return Err(Refusal::Slice);
    }
    let m = search(
        h.initial as u32,
        lead,
        cycle,
        codes,
        codebytes,
        moves,
        movebytes,
        &mut scratch[..used],
    );
    fill_with(scratch, 0);
    if m < n {
        return Ok(Some(m));
    }
    Ok(None)
}
