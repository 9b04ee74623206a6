// One word of a sheet, judged by the masks of its tidy cycle, which a word before it may have filled.

#![tactic(auto)]

ghost use Rattle.std.specs.Prelude.{◌≡◌, ℕ, ◌<◌, length};
ghost use Rattle.rule_entries.specs.Entries.{rule_of};
ghost use Rattle.sheet_spec.specs.Words.{fault_of};
ghost use Rattle.sheet_words.specs.Places.{word_from};
ghost use Rattle.sheet_word.specs.Word.{SheetReady, TidyAt, Served, WordJudged};

use set_masks::contains;
use sheet_cycles::learning::{Reachability, Sought, learn_cycle};
use sheet_cycles::masks::write_masks;
use sheet_words::word_fault;
use slice_search::bytes::fill_with;
use word_spelling::{cycle_length, lead_length};

// Where the tidy spelling of a word of a sheet stands: the lead-in begins at byte first, the cycle is the size bytes from byte begin on;
// and how many places the word has.
#[derive(Clone, Copy)]
pub struct TidyPart {
    pub first: usize,
    pub begin: usize,
    pub size: usize,
    pub places: usize,
}

// The tidy spelling of the word that begins at byte at.
fn tidy_at(sheet: &[u8], at: usize) -> TidyPart
    requires { (at < length sheet.now) × ((s : ℕ) × (fault_of s (word_from sheet.now at) ≡ 0)) }
    ensures { TidyAt sheet.now at result }
{
    let first = at + 2;
    let middle = first + sheet[at] as usize;
    let last = middle + sheet[at + 1] as usize;
    let p = cycle_length(&sheet[middle..last]);
    let m = lead_length(&sheet[first..middle], &sheet[middle..last], p);
    let begin = first + m;
    let places = last - first;
    TidyPart {
        first,
        begin,
        size: p,
        places,
    }
}

// The word to be judged, by where it begins; and how many cycles are known.
#[derive(Clone, Copy)]
pub struct WordAt {
    pub at: usize,
    pub cycles: usize,
}

// The masks of a word that is not faulty, written to the block. How many cycles are known now.
fn serve_word(
    rule: Reachability,
    counts: &[u8],
    starts: &[u16; 128],
    clauses: &[u8],
    sheet: &[u8],
    next: WordAt,
    from: &mut [usize],
    size: &mut [usize],
    filled: &mut [u8],
    block: &mut [u8],
) -> usize
    requires { SheetReady (rule_of rule.head counts.now clauses.now) starts.now rule.reach sheet.now
        from.old size.old filled.old next.cycles
        × (next.at < length sheet.now)
        × (fault_of rule.head.s (word_from sheet.now next.at) ≡ 0)
        × (length block.old ≡ 64) }
    ensures { Served (rule_of rule.head counts.now clauses.now) sheet.now next.at
        from.old size.old next.cycles
        from.new size.new filled.new block.new result }
{
    let h = rule.head;
    let at = next.at;
    let tidy = tidy_at(sheet, at);
    let first = tidy.first;
    let begin = tidy.begin;
    let p = tidy.size;
    let sought = Sought {
        begin: begin,
        size: p,
        cycles: next.cycles,
    };
    let known = learn_cycle(
        rule, counts, starts, clauses, sheet, sought, from, size, filled,
    );
    let start = 32 * known.number;
    let end = start + p;
    write_masks(
        h,
        counts,
        starts,
        clauses,
        &sheet[first..begin],
        &filled[start..end],
        tidy.places,
        block,
    );
    known.cycles
}

// The answer byte of a word, and how many cycles are known after it.
#[derive(Clone, Copy)]
pub struct WordAnswer {
    pub answer: u8,
    pub cycles: usize,
}

// The answer byte of a word, and its mask bytes, written to the block.
pub fn judge_word(
    rule: Reachability,
    counts: &[u8],
    starts: &[u16; 128],
    clauses: &[u8],
    sheet: &[u8],
    next: WordAt,
    from: &mut [usize],
    size: &mut [usize],
    filled: &mut [u8],
    block: &mut [u8],
) -> WordAnswer
    requires { SheetReady (rule_of rule.head counts.now clauses.now) starts.now rule.reach sheet.now
        from.old size.old filled.old next.cycles
        × (next.at < length sheet.now)
        × (length block.old ≡ 64) }
    ensures { WordJudged (rule_of rule.head counts.now clauses.now) sheet.now next.at
        from.old size.old next.cycles
        from.new size.new filled.new block.new result }
{
    let h = rule.head;
    if let Err(fault) = word_fault(h.s, sheet, next.at) {
        fill_with(block, 0);
        return WordAnswer {
            answer: fault.row(),
            cycles: next.cycles,
        };
    }
    let cycles = serve_word(
        rule, counts, starts, clauses, sheet, next, from, size, filled, block,
    );
    if contains(block[0], h.initial as u32) {
        return WordAnswer { answer: 1, cycles };
    }
    WordAnswer { answer: 0, cycles }
}
