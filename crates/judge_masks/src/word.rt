// The states from which a rule accepts, at each place of a word: fixed points on the cycle, from the lowest components up, then back over
// the lead-in, where each place follows from the next.
ghost use Rattle.std.specs.Prelude.{◌≡◌, ◌++◌, [], ℕ, ◌+◌, ◌≤◌, ◌<◌, length, get_or, drop};
ghost use Rattle.theory.specs.Rule.{entry};
ghost use Rattle.theory.specs.Passing.{WellFormed, Passing};
ghost use Rattle.theory.specs.Truth.{truth_masks};
ghost use Rattle.theory.specs.Word.{WordOver, places};
ghost use Rattle.rule_entries.specs.Entries.{rule_of};
ghost use Rattle.rule_reach.specs.Tables.{closures_of};
ghost use Rattle.rule_entries.specs.Starts.{EntryStarts};
ghost use Rattle.judge_place.specs.Starts.{CycleReady, back_over};

use crate::layer::solve_layer;
use judge_place::{at_height, met_by};
use rule_entries::{Head, starts_of};
use rule_reach::closures;
use set_masks::full;
use slice_search::bytes::fill_with;

// The masks of a cycle: the components from the lowest up, each height by rounds.
pub fn fill_cycle(
    h: Head,
    counts: &[u8],
    starts: &[u16; 128],
    clauses: &[u8],
    reach: &[u8; 8],
    cycle: &[u8],
    masks: &mut [u8],
)
    requires { CycleReady (rule_of h counts.now clauses.now) starts.now cycle.now
        × (reach.now ≡ closures_of (rule_of h counts.now clauses.now))
        × (length masks.old ≡ length cycle.now) }
    ensures { masks.new ≡ truth_masks (rule_of h counts.now clauses.now) [] cycle.now }
{
    fill_with(masks, h.accepting as u8);
    for height in 1..=h.n as u32 {
        let layer = at_height(reach, h.n, height);
        solve_layer(h, counts, starts, clauses, cycle, layer, masks);
    }
}

// The masks of a lead-in, in front of the masks of what follows it.
pub fn fill_lead(
    h: Head,
    counts: &[u8],
    starts: &[u16; 128],
    clauses: &[u8],
    lead: &[u8],
    masks: &mut [u8],
)
    requires { WellFormed (rule_of h counts.now clauses.now)
        × EntryStarts counts.now starts.now
        × (length lead.now < length masks.old)
        × ((p : ℕ) → p < length lead.now → get_or lead.now p 0 < h.s) }
    ensures { masks.new
        ≡ back_over (rule_of h counts.now clauses.now) lead.now
        (drop (length lead.now) masks.old) }
{
    let all = full(h.n as u32);
    for i in (0..lead.len()).rev() {
        masks[i] = met_by(
            h,
            counts,
            starts,
            clauses,
            lead[i] as usize,
            masks[i + 1],
            all,
        );
    }
}

// The masks of a word, one a place, from the start of the slice on: the cycle's first, then back over the lead-in.
pub fn fill_word(
    h: Head,
    counts: &[u8],
    starts: &[u16; 128],
    clauses: &[u8],
    reach: &[u8; 8],
    lead: &[u8],
    cycle: &[u8],
    masks: &mut [u8],
)
    requires { Passing (rule_of h counts.now clauses.now)
        × EntryStarts counts.now starts.now
        × (reach.now ≡ closures_of (rule_of h counts.now clauses.now))
        × WordOver h.s lead.now cycle.now
        × (places lead.now cycle.now ≤ length masks.old) }
    ensures { masks.new
        ≡ truth_masks (rule_of h counts.now clauses.now) lead.now cycle.now
        ++ drop (places lead.now cycle.now) masks.old }
{
    let at = lead.len();
    let end = at + cycle.len();
    fill_cycle(
        h,
        counts,
        starts,
        clauses,
        reach,
        cycle,
        &mut masks[at..end],
    );
    fill_lead(h, counts, starts, clauses, lead, masks);
}

// The masks of a word, one a place, from the start of the slice on; the tables of the rule are made for it.
pub fn fill(h: Head, counts: &[u8], clauses: &[u8], lead: &[u8], cycle: &[u8], masks: &mut [u8])
    requires { Passing (rule_of h counts.now clauses.now)
        × WordOver h.s lead.now cycle.now
        × (places lead.now cycle.now ≤ length masks.old) }
    ensures { masks.new
        ≡ truth_masks (rule_of h counts.now clauses.now) lead.now cycle.now
        ++ drop (places lead.now cycle.now) masks.old }
{
    let starts = starts_of(counts);
    let reach = closures(h, counts, clauses);
    fill_word(h, counts, &starts, clauses, &reach, lead, cycle, masks);
}
