// The tidy spelling of a word: the shortest cycle, then the shortest lead-in. A word has many spellings and one that is tidy.

#![tactic(auto)]

ghost use Rattle.std.specs.Prelude.{◌≡◌, ◌++◌, ◌≤◌, ◌<◌, length, take, drop};
ghost use Rattle.theory.specs.Word.{places, letters};
ghost use Rattle.word_spelling_spec.specs.SpellingComputed.{comes_again_lem, cycle_length_lem, shortened};
ghost use Rattle.word_spelling.specs.Tidied.{Tidied};

use refusals::Refusal;
use word_rows::{length_row, letter_at, next_place};

// The lengths of a lead-in and a cycle.
#[derive(Clone, Copy)]
pub struct Lengths {
    pub lead: usize,
    pub cycle: usize,
}

// Whether each letter of the cycle comes again d steps on.
fn comes_again(cycle: &[u8], d: usize) -> bool
    requires { d < length cycle.now }
    ensures { result ≡ comes_again_lem cycle.now d }
{
    let mut later = d;
    for x in cycle {
        if *x != cycle[later] {
            return false;
        }
        later = next_place(0, cycle.len(), later);
    }
    true
}

// The length of the shortest cycle.
pub fn cycle_length(cycle: &[u8]) -> usize
    requires { 0 < length cycle.now }
    ensures { result ≡ cycle_length_lem cycle.now }
{
    for d in 1..cycle.len() {
        if comes_again(cycle, d) {
            return d;
        }
    }
    cycle.len()
}

// The length of the shortest lead-in before a cycle of p letters.
pub fn lead_length(lead: &[u8], cycle: &[u8], p: usize) -> usize
    requires { (0 < length cycle.now) × (p ≤ length cycle.now) × (places lead.now cycle.now < 18446744073709551616) }
    ensures { result ≡ shortened (letters lead.now cycle.now) p (length lead.now) }
{
    for i in (0..lead.len()).rev() {
        if letter_at(lead, cycle, i) != letter_at(lead, cycle, i + p) {
            return i + 1;
        }
    }
    0
}

// Writes the letters of the first n places to the start of out.
pub fn write_letters(lead: &[u8], cycle: &[u8], n: usize, out: &mut [u8])
    requires { (n ≤ places lead.now cycle.now) × (n ≤ length out.old) }
    ensures { out.new ≡ take n (lead.now ++ cycle.now) ++ drop n out.old }
{
    for (i, x) in out[..n].iter_mut().enumerate() {
        *x = letter_at(lead, cycle, i);
    }
}

// Writes the tidy spelling of a word to the start of out, lead-in then cycle, and answers the two lengths.
// Refused by rows 12, 13 and 16, in this order, and out is then unchanged.
pub fn tidy_word(lead: &[u8], cycle: &[u8], out: &mut [u8]) -> Result<Lengths, Refusal>
    ensures { Tidied lead.now cycle.now out.old out.new result }
{
    length_row(lead, cycle)?;
    let p = cycle_length(cycle);
    let m = lead_length(lead, cycle, p);
    if out.len() < m + p {
        return Err(Refusal::Slice);
    }
    write_letters(lead, cycle, m + p, out);
    Ok(Lengths { lead: m, cycle: p })
}
