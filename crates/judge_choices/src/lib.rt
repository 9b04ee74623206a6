// The judge of words on a rule that shows which clause carried the verdict of each state at each place, so that one can follow why a word
// is accepted.

#![tactic(auto)]

ghost use Rattle.std.specs.Prelude.{◌≡◌, ◌++◌, ◌*◌, ◌≤◌, length, drop};
ghost use Rattle.theory.specs.Passing.{Passing};
ghost use Rattle.theory.specs.Word.{WordOver, places};
ghost use Rattle.theory.specs.Truth.{truth_masks};
ghost use Rattle.rule_entries.specs.Entries.{rule_of};
ghost use Rattle.judge_choices_spec.specs.ChoicesComputed.{choices_of};
ghost use Rattle.judge_choices.specs.Judge.{CalledChoices, JudgedChoices};

use file_read::{clauses_of, counts_of, read_rule};
use judge_choices_fill::fill_choices;
use judge_choices_place::{Partition, classes_of};
use judge_masks::word::fill_word;
use refusals::Refusal;
use rule_entries::{Head, starts_of};
use rule_reach::closures;
use set_masks::contains;
use word_rows::word_row;

// The masks and the choices of a word, each from the start of its slice on.
pub fn fill_both(
    h: Head,
    counts: &[u8],
    clauses: &[u8],
    lead: &[u8],
    cycle: &[u8],
    masks: &mut [u8],
    choices: &mut [u8],
)
    requires { Passing (rule_of h counts.now clauses.now)
        × WordOver h.s lead.now cycle.now
        × (places lead.now cycle.now ≤ 64)
        × (places lead.now cycle.now ≤ length masks.old)
        × (places lead.now cycle.now * h.n ≤ length choices.old) }
    ensures { let r = rule_of h counts.now clauses.now in
        let u = lead.now in
        let v = cycle.now in
        (masks.new ≡ truth_masks r u v ++ drop (places u v) masks.old)
        × (choices.new ≡ choices_of r u v ++ drop (places u v * h.n) choices.old) }
{
    let starts = starts_of(counts);
    let reach = closures(h, counts, clauses);
    let classes = classes_of(h, counts, clauses, &reach);
    let rule = Partition {
        head: h,
        classes: classes,
    };
    let end = lead.len() + cycle.len();
    fill_word(h, counts, &starts, clauses, &reach, lead, cycle, masks);
    fill_choices(
        rule,
        counts,
        &starts,
        clauses,
        lead,
        cycle,
        &masks[..end],
        choices,
    );
}

// Whether a rule that passes every check accepts the word; its masks and choices are written from the starts of their slices on.
// Refused by rows 12 to 14 and 16, and both slices are then unchanged.
pub fn judge_choices_read(
    h: Head,
    counts: &[u8],
    clauses: &[u8],
    lead: &[u8],
    cycle: &[u8],
    masks: &mut [u8],
    choices: &mut [u8],
) -> Result<bool, Refusal>
    requires { Passing (rule_of h counts.now clauses.now) }
    ensures { CalledChoices (rule_of h counts.now clauses.now) lead.now cycle.now
        masks.old masks.new choices.old choices.new result }
{
    word_row(h.s, lead, cycle)?;
    let places = lead.len() + cycle.len();
    if masks.len() < places {
        return Err(Refusal::Slice);
    }
    if choices.len() < places * h.n {
        return Err(Refusal::Slice);
    }
    fill_both(h, counts, clauses, lead, cycle, masks, choices);
    Ok(contains(masks[0], h.initial as u32))
}

// Whether the rule of a file accepts the word, from its initial state at place 0. For each place, in order, one byte of masks becomes
// the mask of the states from which the rule accepts there. Byte place × n + state of choices becomes the number of the clause that
// carries the verdict of the pair, or 255 for a pair from which the rule does not accept. The bytes after them stay.
// Refused by rows 1 to 14 and 16, in this order, and both slices are then unchanged.
pub fn judge_choices(
    file: &[u8],
    lead: &[u8],
    cycle: &[u8],
    masks: &mut [u8],
    choices: &mut [u8],
) -> Result<bool, Refusal>
    ensures { JudgedChoices file.now lead.now cycle.now
        masks.old masks.new choices.old choices.new result }
{
    let l = read_rule(file)?;
    judge_choices_read(
        l.head,
        counts_of(file, l),
        clauses_of(file, l),
        lead,
        cycle,
        masks,
        choices,
    )
}
