// The C entry of the tidy spelling of a word, by which a caller can store each word in one way.
ghost use Rattle.std.specs.Prelude.{◌≡◌, length};
ghost use Rattle.theory.specs.Word.{letters};
ghost use Rattle.word_spelling_spec.specs.Spelling.{Tidy};
ghost use Rattle.word_spelling_spec.specs.SpellingComputed.{tidy_lead, tidy_cycle};
ghost use Rattle.word_spelling.specs.Tidied.{tidy_letters, tidy_row, tidy_word_of, after};
ghost use Rattle.mulgreddi_answers.specs.Answers.{tidy_word_answer};

use mulgreddi_answers::Answer;

// Writes the tidy spelling of a word to the start of out, lead-in then cycle; the lengths of both.
#[unsafe(no_mangle)]
pub extern "C" fn mulgreddi_tidy_word(lead: &[u8], cycle: &[u8], out: &mut [u8]) -> Answer
    ensures value { result ≡ tidy_word_answer (tidy_word_of lead.now cycle.now (length out.old)) }
    ensures out_after { out.new
        ≡ after (tidy_row lead.now cycle.now (length out.old))
        (tidy_letters lead.now cycle.now) out.old }
    ensures tidy { tidy_row lead.now cycle.now (length out.old) ≡ 0
        → Tidy (letters lead.now cycle.now) (tidy_lead lead.now cycle.now)
        (tidy_cycle lead.now cycle.now) }
{
    mulgreddi_answers_words::tidy_word(word_spelling::tidy_word(lead, cycle, out))
}
