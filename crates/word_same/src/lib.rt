// The sameness of words: whether they agree at every step. As many steps as both have places together decide it.

#![tactic(auto)]

ghost use Rattle.std.specs.Prelude.{◌≡◌, ◌+◌, ◌<◌, length};
ghost use Rattle.theory.specs.Word.{places};
ghost use Rattle.word_spelling_spec.specs.SpellingComputed.{same_word};
ghost use Rattle.word_same.specs.Same.{Compared};

use refusals::Refusal;
use word_rows::{length_row, letter_at, next_place};

// Whether two words agree at as many steps as both have places together: then they agree at every step.
fn agree(lead1: &[u8], cycle1: &[u8], lead2: &[u8], cycle2: &[u8]) -> bool
    requires cycle1_nonzero { (0 < length cycle1.now) × (0 < length cycle2.now) }
    requires cycle2_bound { places lead1.now cycle1.now + places lead2.now cycle2.now < 18446744073709551616 }
    ensures { result ≡ same_word lead1.now cycle1.now lead2.now cycle2.now }
{
    let steps = lead1.len() + cycle1.len() + lead2.len() + cycle2.len();
    let mut p = 0;
    let mut q = 0;
    for _ in 0..steps {
        if letter_at(lead1, cycle1, p) != letter_at(lead2, cycle2, q) {
            return false;
        }
        p = next_place(lead1.len(), cycle1.len(), p);
        q = next_place(lead2.len(), cycle2.len(), q);
    }
    true
}

// Whether two words are the same; refused by rows 12 and 13, first word first.
pub fn same_words(lead1: &[u8], cycle1: &[u8], lead2: &[u8], cycle2: &[u8]) -> Result<bool, Refusal>
    ensures { Compared lead1.now cycle1.now lead2.now cycle2.now result }
{
    length_row(lead1, cycle1)?;
    length_row(lead2, cycle2)?;
    Ok(agree(lead1, cycle1, lead2, cycle2))
}
