// The judge of words on a rule: whether the rule accepts a word, told from the rule itself, without a build.

#![tactic(auto)]

ghost use Rattle.theory.specs.Passing.{Passing};
ghost use Rattle.rule_entries.specs.Entries.{rule_of};
ghost use Rattle.judge_spec.specs.Judge.{JudgeCalled, Judged};

use file_read::{clauses_of, counts_of, read_rule};
use judge_masks::word::fill;
use refusals::Refusal;
use rule_entries::Head;
use set_masks::contains;
use word_rows::word_row;

// Whether a rule that passes every check accepts the word; the masks of the word are written from the start of masks on.
// Refused by rows 12 to 14 and 16, and masks is then unchanged.
pub fn judge_read(
    h: Head,
    counts: &[u8],
    clauses: &[u8],
    lead: &[u8],
    cycle: &[u8],
    masks: &mut [u8],
) -> Result<bool, Refusal>
    requires { Passing (rule_of h counts.now clauses.now) }
    ensures { JudgeCalled (rule_of h counts.now clauses.now) lead.now cycle.now masks.old
        masks.new result }
{
    word_row(h.s, lead, cycle)?;
    if masks.len() < lead.len() + cycle.len() {
        return Err(Refusal::Slice);
    }
    fill(h, counts, clauses, lead, cycle, masks);
    Ok(contains(masks[0], h.initial as u32))
}

// Whether the rule of a file accepts the word, from its initial state at place 0. For each place, in order, one byte of masks becomes
// the mask of the states from which the rule accepts there; the bytes after them stay.
// Refused by the rows of the rule, of the word and of the slice, in this order, and masks is then unchanged.
pub fn judge(file: &[u8], lead: &[u8], cycle: &[u8], masks: &mut [u8]) -> Result<bool, Refusal>
    ensures { Judged file.now lead.now cycle.now masks.old masks.new result }
{
    let l = read_rule(file)?;
    judge_read(
        l.head,
        counts_of(file, l),
        clauses_of(file, l),
        lead,
        cycle,
        masks,
    )
}
