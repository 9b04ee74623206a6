// Words, a lead-in and a cycle with one letter a byte: the rows 12 to 14, which letter stands at a place, and which place follows.

#![tactic(auto)]

ghost use Rattle.std.specs.Prelude.{◌≡◌, List, ℕ, ◌+◌, ◌<◌, length};
ghost use Rattle.theory.specs.Word.{letter_at_lem, next_place_lem};
ghost use Rattle.refusals.specs.Rows.{first_refusal};
ghost use Rattle.word_rows.specs.Words.{length_rows, word_rows_lem};

use refusals::Refusal;
use slice_search::any_from;

// What the first of rows 12 and 13 that applies refuses the word for.
#[tactic(auto, unfolding(refusals::specs::Rows::first_refusal, crate::specs::Words::length_rows))]
pub fn length_row(lead: &[u8], cycle: &[u8]) -> Result<(), Refusal>
    ensures { result ≡ first_refusal (length_rows lead.now cycle.now) }
{
    if cycle.is_empty() {
        return Err(Refusal::NoCycle);
    }
    if 32 < lead.len() || 32 < cycle.len() {
        return Err(Refusal::LongWord);
    }
    Ok(())
}

// What the first of rows 12 to 14 that applies refuses the word over s letters for.
#[tactic(auto, using(refusals::proofs::Rows::refusal_and), unfolding(refusals::specs::Rows::first_refusal, crate::specs::Words::word_rows_lem, crate::specs::Words::letter_rows))]
pub fn word_row(s: usize, lead: &[u8], cycle: &[u8]) -> Result<(), Refusal>
    ensures { result ≡ first_refusal (word_rows_lem s lead.now cycle.now) }
{
    length_row(lead, cycle)?;
    if any_from(lead, s) || any_from(cycle, s) {
        return Err(Refusal::Letter);
    }
    Ok(())
}

// The letter at place p.
pub fn letter_at(lead: &[u8], cycle: &[u8], p: usize) -> u8
    requires { p < length lead.now + length cycle.now }
    ensures { result ≡ letter_at_lem lead.now cycle.now p }
{
    let n = lead.len();
    if p < n {
        return lead[p];
    }
    cycle[p - n]
}

// The place that follows p in a word whose lead-in and cycle have the lengths lead and cycle.
pub fn next_place(lead: usize, cycle: usize, p: usize) -> usize
    requires { (p < lead + cycle) × (lead + cycle < 18446744073709551616) }
    ensures { (u v : List ℕ) → length u ≡ lead → length v ≡ cycle → result ≡ next_place_lem u v p }
{
    if p + 1 == lead + cycle {
        return lead;
    }
    p + 1
}
