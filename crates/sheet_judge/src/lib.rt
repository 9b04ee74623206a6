// The judge of a sheet of words on a rule: each word is answered as if alone, and a cycle that words share is filled once.

#![tactic(auto)]

ghost use Rattle.std.specs.Prelude.{◌*◌, ◌≤◌, length};
ghost use Rattle.theory.specs.Passing.{Passing};
ghost use Rattle.rule_entries.specs.Entries.{rule_of};
ghost use Rattle.sheet_spec.specs.Words.{words_of};
ghost use Rattle.sheet_spec.specs.Computed.{SheetComputed};
ghost use Rattle.sheet_spec.specs.Judged.{SheetJudged};
ghost use Rattle.sheet_judge.specs.Called.{WordsJudged, SheetCalled};

use file_read::{clauses_of, counts_of, read_rule};
use refusals::Refusal;
use rule_entries::{Head, starts_of};
use rule_reach::closures;
use sheet_cycles::learning::Reachability;
use sheet_spec::Totals;
use sheet_word::{WordAt, judge_word};
use sheet_words::{count_words, next_word};

// Judges the words of a sheet, one after the other; how many cycles were filled.
pub fn judge_words(
    h: Head,
    counts: &[u8],
    clauses: &[u8],
    sheet: &[u8],
    answers: &mut [u8],
    masks: &mut [u8],
) -> usize
    requires { Passing (rule_of h counts.now clauses.now)
        × (length (words_of sheet.now) ≤ 64)
        × (length (words_of sheet.now) ≤ length answers.old)
        × (64 * length (words_of sheet.now) ≤ length masks.old) }
    ensures { WordsJudged (rule_of h counts.now clauses.now) sheet.now
        answers.old masks.old answers.new masks.new result }
{
    let starts = starts_of(counts);
    let reach = closures(h, counts, clauses);
    let rule = Reachability {
        head: h,
        reach: reach,
    };
    let mut from = [0usize; 64];
    let mut size = [0usize; 64];
    let mut filled = [0u8; 2048];
    let mut cycles = 0;
    let mut at = 0;
    let mut i = 0;
    // A while: it goes from word to word.
    while at < sheet.len() {
        let begin = 64 * i;
        let end = begin + 64;
        let next = WordAt { at, cycles };
        let word = judge_word(
            rule,
            counts,
            &starts,
            clauses,
            sheet,
            next,
            &mut from,
            &mut size,
            &mut filled,
            &mut masks[begin..end],
        );
        answers[i] = word.answer;
        cycles = word.cycles;
        at = next_word(sheet, at);
        i += 1;
    }
    cycles
}

// Judges the words of any sheet, for a rule that passes every check; how many words there are, and how many cycles were filled. Refused by
// rows 24 and 16, in this order, and both slices are then unchanged.
pub fn judge_sheet_read(
    h: Head,
    counts: &[u8],
    clauses: &[u8],
    sheet: &[u8],
    answers: &mut [u8],
    masks: &mut [u8],
) -> Result<Totals, Refusal>
    requires { Passing (rule_of h counts.now clauses.now) }
    ensures { SheetCalled (rule_of h counts.now clauses.now) sheet.now
        answers.old masks.old answers.new masks.new result }
{
    let words = count_words(sheet);
    if 64 < words {
        return Err(Refusal::Words);
    }
    if answers.len() < words {
        return Err(Refusal::Slice);
    }
    if masks.len() < 64 * words {
        return Err(Refusal::Slice);
    }
    let cycles = judge_words(h, counts, clauses, sheet, answers, masks);
    Ok(Totals { words, cycles })
}

// Judges the words of a sheet on the rule of a file. For each word, in sheet order, one byte of answers becomes 0 for no, 1 for yes or the
// number of a faulty word, and 64 bytes of masks become those of the word, zeros after its places; the bytes after them stay.
// Refused by the rows of the rule, 24 and 16, in this order, and both slices are then unchanged.
pub fn judge_sheet(
    file: &[u8],
    sheet: &[u8],
    answers: &mut [u8],
    masks: &mut [u8],
) -> Result<Totals, Refusal>
    ensures { SheetJudged file.now sheet.now answers.old masks.old
        answers.new masks.new result
        × SheetComputed file.now sheet.now answers.old masks.old
        answers.new masks.new result }
{
    let l = read_rule(file)?;
    judge_sheet_read(
        l.head,
        counts_of(file, l),
        clauses_of(file, l),
        sheet,
        answers,
        masks,
    )
}
