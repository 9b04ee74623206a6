// The mask bytes of one word of a sheet: behind its tidy lead-in a word is its tidy cycle over and over, so its masks are those of the
// cycle, repeated.
ghost use Rattle.std.specs.Prelude.{◌≡◌, ◌++◌, ℕ, ◌-◌, ◌≤◌, ◌<◌, length, get_or, replicate};
ghost use Rattle.theory.specs.Passing.{WellFormed};
ghost use Rattle.rule_entries.specs.Entries.{rule_of};
ghost use Rattle.rule_entries.specs.Starts.{EntryStarts};
ghost use Rattle.judge_place.specs.Starts.{back_over};
ghost use Rattle.sheet_cycles.specs.Repeats.{repeated, spread_of};

use judge_masks::word::fill_lead;
use rule_entries::Head;
use word_rows::next_place;

// Writes the masks of a cycle, again and again, to the bytes from first to below end; zeros to those after.
pub fn repeat_cycle(cycle: &[u8], first: usize, end: usize, block: &mut [u8])
    requires { (0 < length cycle.now) × (first ≤ end) × (end ≤ length block.old) }
    ensures { block.new ≡ spread_of cycle.now first end block.old }
{
    let n = cycle.len();
    let mut p = 0;
    for i in first..end {
        block[i] = cycle[p];
        p = next_place(0, n, p);
    }
    block[end..].fill(0);
}

// The masks of a word of so many places: those of its tidy lead-in, then those of its tidy cycle again and again; zeros after them.
pub fn write_masks(
    h: Head,
    counts: &[u8],
    starts: &[u16; 128],
    clauses: &[u8],
    lead: &[u8],
    cycle: &[u8],
    places: usize,
    block: &mut [u8],
)
    requires { WellFormed (rule_of h counts.now clauses.now)
        × EntryStarts counts.now starts.now
        × ((p : ℕ) → p < length lead.now → get_or lead.now p 0 < h.s)
        × (0 < length cycle.now)
        × (length lead.now < places)
        × (places ≤ length block.old) }
    ensures { block.new
        ≡ back_over (rule_of h counts.now clauses.now) lead.now
        (repeated cycle.now (places - length lead.now) ++ replicate (length block.old - places) 0) }
{
    let first = lead.len();
    repeat_cycle(cycle, first, places, block);
    fill_lead(h, counts, starts, clauses, lead, block);
}
