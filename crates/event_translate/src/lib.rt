// The translation of a log into letters by an event table: events in no line, and the letters.

#![tactic(auto)]

pub mod log;

ghost use Rattle.std.specs.Prelude.{◌≡◌, length};
ghost use Rattle.event_spec.specs.Translation.{translated_of, letters_after_lem, Called};

use crate::log::{has_unknown, write_letters};
use event_table::{has_covered, is_faulty_table, masks_of};
use file_read::read_rule;
use refusals::Refusal;

// Writes the letter of each event of a log to the start of letters, for a rule over s letters that was read; how many. Refused by rows 25,
// 26, 27 and 16, in this order, and letters is then unchanged.
fn translate_read(s: usize, events: &[u8], log: &[u8], letters: &mut [u8]) -> Result<usize, Refusal>
    ensures { Called s events.now log.now letters.old letters.new result }
{
    if is_faulty_table(s, events) {
        return Err(Refusal::EventLine);
    }
    let kinds = masks_of(events, 0);
    let drives = masks_of(events, 2);
    if has_covered(events, &kinds, &drives) {
        return Err(Refusal::CoveredLine);
    }
    if has_unknown(&kinds, &drives, log) {
        return Err(Refusal::NoLine);
    }
    let n = log.len() / 2;
    if letters.len() < n {
        return Err(Refusal::Slice);
    }
    write_letters(events, &kinds, &drives, log, letters);
    Ok(n)
}

// Writes the letter of each event of a log, by the first line of the event table that holds it, from the start of letters on; how many.
// Refused by the rows of the rule file and by rows 25, 26, 27 and 16, in this order, and letters is then unchanged.
pub fn translate(
    file: &[u8],
    events: &[u8],
    log: &[u8],
    letters: &mut [u8],
) -> Result<usize, Refusal>
    ensures value { result ≡ translated_of file.now events.now log.now (length letters.old) }
    ensures letters_after { letters.new
        ≡ letters_after_lem file.now events.now log.now letters.old }
{
    let l = read_rule(file)?;
    translate_read(l.head.s, events, log, letters)
}
