// The C interface, by which programs in other languages call the library: every public entry, its answer as numbers. include/mulgreddi.h
// declares and documents it.

#![tactic(auto)]

pub mod choices;
pub mod event;
pub mod follow;
pub mod hoa;
pub mod live;
pub mod loops;
pub mod names;
pub mod rejecting;
pub mod sheet;
pub mod stricter_than;
pub mod tidy;
pub mod trimmed;
pub mod version;
pub mod word;

ghost use Rattle.std.specs.Prelude.{◌≡◌, ◌↔◌, [], length, ℕ, Bool, true, Result, Ok, Option};
ghost use Rattle.refusals.specs.declared.Refusal.{Refusal};
ghost use Rattle.build.specs.Entry.{TableBuilt};
ghost use Rattle.build.specs.declared.Counts.{Counts};
ghost use Rattle.judge_spec.specs.Judge.{Judged};
ghost use Rattle.table_lent.specs.Lent.{in_bytes_lem};
ghost use Rattle.table_judge.specs.Tables.{JudgedTable};
ghost use Rattle.rule_same.specs.Same.{same_rules_of};
ghost use Rattle.file_write_spec.specs.Written.{head_from, written_of, slice_after};
ghost use Rattle.word_spelling_spec.specs.Spelling.{Agree};
ghost use Rattle.word_same.specs.Same.{same_row, same_words_of};
ghost use Rattle.mulgreddi_answers.specs.Answers.{written_answer, same_rules_answer, same_words_answer, verdict_answer};
ghost use Rattle.mulgreddi_answers.specs.Answers.{built_answer, start_answer};
ghost use Rattle.mulgreddi.specs.Check.{Checked};

use mulgreddi_answers::Answer;

// Reads a rule file; the length of its preface, and how many bytes of names stand right before the preface's last two bytes.
#[unsafe(no_mangle)]
pub extern "C" fn mulgreddi_check(file: &[u8]) -> Answer
    ensures { Checked file.now result }
{
    match file_read::read_rule(file) {
        Ok(layout) => mulgreddi_answers_rules::checked(layout.at, layout.names),
        Err(refusal) => mulgreddi_answers::refused(refusal.row()),
    }
}

// Writes the file of a rule to the start of out; its length.
#[unsafe(no_mangle)]
pub extern "C" fn mulgreddi_write(
    n: u32,
    s: u32,
    initial: u32,
    accepting: u32,
    counts: &[u8],
    clauses: &[u8],
    out: &mut [u8],
) -> Answer
    ensures value { result
        ≡ written_answer
        (written_of (head_from n s initial accepting) counts.now clauses.now [] (length out.old)) }
    ensures out_after { out.new
        ≡ slice_after (head_from n s initial accepting) counts.now clauses.now [] out.old }
{
    mulgreddi_answers_rules::written(file_write::writer::write_rule(
        n, s, initial, accepting, counts, clauses, out,
    ))
}

// Whether two rule files are the same rule.
#[unsafe(no_mangle)]
pub extern "C" fn mulgreddi_same_rules(first: &[u8], second: &[u8]) -> Answer
    ensures { result ≡ same_rules_answer (same_rules_of first.now second.now) }
{
    mulgreddi_answers_rules::same_rules(rule_same::files::same_rules(first, second))
}

// Whether two words agree at every step.
#[unsafe(no_mangle)]
pub extern "C" fn mulgreddi_same_words(
    lead1: &[u8],
    cycle1: &[u8],
    lead2: &[u8],
    cycle2: &[u8],
) -> Answer
    ensures value { result ≡ same_words_answer (same_words_of lead1.now cycle1.now
        lead2.now cycle2.now) }
    ensures variant { same_row lead1.now cycle1.now lead2.now cycle2.now ≡ 0
        → (same_words_of lead1.now cycle1.now lead2.now cycle2.now ≡ Ok true)
        ↔ Agree lead1.now cycle1.now lead2.now cycle2.now }
{
    mulgreddi_answers_words::same_words(word_same::same_words(lead1, cycle1, lead2, cycle2))
}

// Whether the rule accepts the word; writes the masks of the states from which it accepts, a byte a place.
#[unsafe(no_mangle)]
pub extern "C" fn mulgreddi_judge(
    file: &[u8],
    lead: &[u8],
    cycle: &[u8],
    masks: &mut [u8],
) -> Answer
    ensures { (v : Result Bool Refusal) × (result ≡ verdict_answer v)
        × Judged file.now lead.now cycle.now masks.old masks.new v }
{
    mulgreddi_answers_words::verdict(judge::judge(file, lead, cycle, masks))
}

// Builds the unambiguous automaton of a rule file: codes and transitions, both ascending, zeros after them; both counts.
#[unsafe(no_mangle)]
pub extern "C" fn mulgreddi_build(file: &[u8], codes: &mut [u64], transitions: &mut [u64]) -> Answer
    ensures { (b : Result Counts Refusal) × (result ≡ built_answer b)
        × TableBuilt file.now codes.old transitions.old b
        codes.new transitions.new }
{
    mulgreddi_answers_tables::built(build::build(file, codes, transitions))
}

// Judges a word on a table of codes and transitions in bytes; 1 for yes, 0 for no, and with yes the lowest number where an accepting run
// begins.
#[unsafe(no_mangle)]
pub extern "C" fn mulgreddi_judge_table(
    file: &[u8],
    lead: &[u8],
    cycle: &[u8],
    codes: &[u8],
    transitions: &[u8],
    scratch: &mut [u8],
) -> Answer
    ensures { (a : Result (Option ℕ) Refusal)
        × (result ≡ start_answer a)
        × JudgedTable file.now lead.now cycle.now (in_bytes_lem codes.now)
        (in_bytes_lem transitions.now) scratch.old scratch.new a }
{
    mulgreddi_answers_tables::start(table_judge::judge_table_bytes(
        file,
        lead,
        cycle,
        codes,
        transitions,
        scratch,
    ))
}
