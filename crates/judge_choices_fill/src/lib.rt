// The choices of a word: those of accepting states at once, those of rejecting ones by rounds, since their clause has to lead nearer to
// where the component is left.

#![tactic(auto)]

ghost use Rattle.std.specs.Prelude.{◌≡◌, ◌++◌, ◌*◌, ◌≤◌, length, drop};
ghost use Rattle.theory.specs.Word.{places};
ghost use Rattle.rule_entries.specs.Entries.{rule_of};
ghost use Rattle.judge_choices_spec.specs.ChoicesComputed.{choices_of};
ghost use Rattle.judge_choices_spec.specs.Rounds.{Ready, Started};

use judge_choices_place::{Partition, choose_each};
use judge_choices_rounds::choose_rejecting;
use slice_search::bytes::fill_with;
use word_rows::{letter_at, next_place};

// The choices of the accepting states, at every place.
pub fn choose_accepting(
    rule: Partition,
    counts: &[u8],
    starts: &[u16; 128],
    clauses: &[u8],
    lead: &[u8],
    cycle: &[u8],
    masks: &[u8],
    choices: &mut [u8],
)
    requires { Ready (rule_of rule.head counts.now clauses.now) starts.now rule.classes lead.now cycle.now masks.now
        × (places lead.now cycle.now * rule.head.n ≤ length choices.old) }
    ensures { Started (rule_of rule.head counts.now clauses.now) lead.now cycle.now
        masks.now (places lead.now cycle.now) choices.old choices.new }
{
    let h = rule.head;
    let accepting = h.accepting as u8;
    let at = lead.len();
    let end = at + cycle.len();
    for p in 0..end {
        let all = masks[next_place(at, cycle.len(), p)];
        choose_each(
            rule,
            counts,
            starts,
            clauses,
            letter_at(lead, cycle, p) as usize,
            all,
            all,
            masks[p] & accepting,
            choices,
            p * h.n,
        );
    }
}

// The choices of a word, from the start of the slice on.
pub fn fill_choices(
    rule: Partition,
    counts: &[u8],
    starts: &[u16; 128],
    clauses: &[u8],
    lead: &[u8],
    cycle: &[u8],
    masks: &[u8],
    choices: &mut [u8],
)
    requires { Ready (rule_of rule.head counts.now clauses.now) starts.now rule.classes lead.now cycle.now masks.now
        × (places lead.now cycle.now * rule.head.n ≤ length choices.old) }
    ensures { choices.new
        ≡ choices_of (rule_of rule.head counts.now clauses.now) lead.now cycle.now
        ++ drop (places lead.now cycle.now * rule.head.n) choices.old }
{
    let h = rule.head;
    let end = (lead.len() + cycle.len()) * h.n;
    fill_with(&mut choices[..end], 255);
    choose_accepting(rule, counts, starts, clauses, lead, cycle, masks, choices);
    choose_rejecting(rule, counts, starts, clauses, lead, cycle, masks, choices);
}
