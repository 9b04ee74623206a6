// The C entry of the translation of a log, by which a caller gets the letters of events.
ghost use Rattle.std.specs.Prelude.{◌≡◌, length};
ghost use Rattle.event_spec.specs.Translation.{translated_of, letters_after_lem};
ghost use Rattle.mulgreddi_answers.specs.Answers.{translated_answer};

use mulgreddi_answers::Answer;

// Translates a log into letters by an event table; how many.
#[unsafe(no_mangle)]
pub extern "C" fn mulgreddi_translate(
    file: &[u8],
    events: &[u8],
    log: &[u8],
    letters: &mut [u8],
) -> Answer
    ensures value { result
        ≡ translated_answer
        (translated_of file.now events.now log.now (length letters.old)) }
    ensures letters_after { letters.new
        ≡ letters_after_lem file.now events.now log.now letters.old }
{
    mulgreddi_answers_tables::translated(event_translate::translate(file, events, log, letters))
}
