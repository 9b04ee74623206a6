// The words of a sheet, found in its bytes: how many, where each begins, and the number of a faulty one, which does not refuse the others.

#![tactic(auto)]

ghost use Rattle.std.specs.Prelude.{◌≡◌, ◌<◌, length};
ghost use Rattle.refusals.specs.Rows.{row_of};
ghost use Rattle.sheet_spec.specs.Words.{words_of, fault_of};
ghost use Rattle.sheet_words.specs.Places.{word_from, Next};

use refusals::Refusal;
use word_rows::word_row;

// Where the next word begins, or the sheet ends, after the word that begins at byte at.
pub fn next_word(sheet: &[u8], at: usize) -> usize
    requires { at < length sheet.now }
    ensures { Next sheet.now at result }
{
    let end = sheet.len();
    if end - at < 2 {
        return end;
    }
    let size = sheet[at] as usize + sheet[at + 1] as usize;
    if end - at - 2 < size {
        return end;
    }
    at + 2 + size
}

// How many words a sheet has; a cut-off last one counts.
pub fn count_words(sheet: &[u8]) -> usize
    ensures { result ≡ length (words_of sheet.now) }
{
    let mut n = 0;
    let mut at = 0;
    // A while: it goes from word to word.
    while at < sheet.len() {
        at = next_word(sheet, at);
        n += 1;
    }
    n
}

// What the word that begins at byte at is faulty for, over s letters: the first of rows 12 to 14.
pub fn word_fault(s: usize, sheet: &[u8], at: usize) -> Result<(), Refusal>
    requires { at < length sheet.now }
    ensures { row_of result ≡ fault_of s (word_from sheet.now at) }
{
    let end = sheet.len();
    if end - at < 2 {
        return Err(Refusal::LongWord);
    }
    let lead = sheet[at] as usize;
    let cycle = sheet[at + 1] as usize;
    if end - at - 2 < lead + cycle {
        if cycle == 0 {
            return Err(Refusal::NoCycle);
        }
        return Err(Refusal::LongWord);
    }
    let first = at + 2;
    let middle = first + lead;
    let last = middle + cycle;
    word_row(s, &sheet[first..middle], &sheet[middle..last])
}
