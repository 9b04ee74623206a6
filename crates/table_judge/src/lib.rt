// The judge of words on a built table: whether one of its accepting runs goes over a word. So a table built once answers for its rule.

#![tactic(auto)]

ghost use Rattle.table_lent.specs.Lent.{in_words, in_bytes_lem};
ghost use Rattle.table_judge.specs.Tables.{JudgedTable};

use file_read::read_rule;
use refusals::Refusal;
use table_call::judge_lent;

// Whether an accepting run of a table over a word begins in an initial macrostate, and the lowest number of one where it does.
// Refused by the rows of the rule, word, table and slices, in this order, and scratch is then unchanged; else it is zero throughout.
pub fn judge_table(
    file: &[u8],
    lead: &[u8],
    cycle: &[u8],
    codes: &[u64],
    transitions: &[u64],
    scratch: &mut [u8],
) -> Result<Option<usize>, Refusal>
    ensures { JudgedTable file.now lead.now cycle.now (in_words codes.now)
        (in_words transitions.now) scratch.old scratch.new result }
{
    let none = &file[..0];
    match read_rule(file) {
        Ok(l) => judge_lent(l.head, lead, cycle, codes, none, transitions, none, scratch),
        Err(refusal) => Err(refusal),
    }
}

// Whether an accepting run of a table in bytes, each code and transition as 8 bytes, low byte first, over a word begins in an initial
// macrostate, and the lowest number of one where it does. Refused by the rows of the rule, word, table and slices, in this order, and
// scratch is then unchanged; else it is zero throughout.
pub fn judge_table_bytes(
    file: &[u8],
    lead: &[u8],
    cycle: &[u8],
    codes: &[u8],
    transitions: &[u8],
    scratch: &mut [u8],
) -> Result<Option<usize>, Refusal>
    ensures { JudgedTable file.now lead.now cycle.now (in_bytes_lem codes.now)
        (in_bytes_lem transitions.now) scratch.old scratch.new result }
{
    let words = [0u64; 1];
    let none = &words[..0];
    match read_rule(file) {
        Ok(r) => judge_lent(r.head, lead, cycle, none, codes, none, transitions, scratch),
        Err(row) => Err(row),
    }
}
