// The three numbers of an answer of the C interface, which has no variants that carry values, and what they are for each answer of an entry
// (specs/Answers).

#![tactic(auto)]

ghost use Rattle.std.specs.Prelude.{◌≡◌, ℕ};
ghost use Rattle.mulgreddi_answers.specs.Answers.{refused_as, served_as, answer_of, number_shown, flag_shown, start_shown};
ghost use Rattle.mulgreddi_answers.specs.Answers.{counts_shown, sizes_shown, live_shown, follow_shown, lengths_shown, totals_shown};

use build::Counts;
use follow_spec::FollowCounts;
use hoa_spec::TableSizes;
use live_spec::LiveCounts;
use refusals::Refusal;
use sheet_spec::Totals;
use word_spelling::Lengths;

// refusal is 0 where the input was served; else first and second are 0.
#[repr(C)]
#[derive(Clone, Copy)]
pub struct Answer {
    pub refusal: u64,
    pub first: u64,
    pub second: u64,
}

// The answer of a refusal, by the number of its row.
pub fn refused(row: u8) -> Answer
    ensures { result ≡ refused_as row }
{
    Answer {
        refusal: row as u64,
        first: 0,
        second: 0,
    }
}

// The answer of a served call.
pub fn served(first: u64, second: u64) -> Answer
    ensures { result ≡ served_as first second }
{
    Answer {
        refusal: 0,
        first: first,
        second: second,
    }
}

// What a served answer shows to C: two numbers.
pub trait Shown {
    ghost shown: { Self → ℕ × ℕ };

    fn numbers(self) -> (u64, u64)
        ensures { result ≡ shown self };
}

// The answer of a call that serves or refuses.
pub fn answered<T: Shown>(answer: Result<T, Refusal>) -> Answer
    ensures { result ≡ answer_of T.shown answer }
{
    match answer {
        Ok(x) => {
            let (first, second) = x.numbers();
            served(first, second)
        }
        Err(refusal) => refused(refusal.row()),
    }
}

// A number alone.
impl Shown for usize {
    ghost shown = { number_shown };

    fn numbers(self) -> (u64, u64) {
        (self as u64, 0)
    }
}

// 1 yes, 0 no.
impl Shown for bool {
    ghost shown = { flag_shown };

    fn numbers(self) -> (u64, u64) {
        if self { (1, 0) } else { (0, 0) }
    }
}

// 1 and the number for yes, 0 for no.
impl Shown for Option<usize> {
    ghost shown = { start_shown };

    fn numbers(self) -> (u64, u64) {
        match self {
            Some(number) => (1, number as u64),
            None => (0, 0),
        }
    }
}

// Both counts.
impl Shown for Counts {
    ghost shown = { counts_shown };

    fn numbers(self) -> (u64, u64) {
        let Counts {
            macrostates,
            transitions,
        } = self;
        (macrostates as u64, transitions as u64)
    }
}

// Both numbers that a text carries.
impl Shown for TableSizes {
    ghost shown = { sizes_shown };

    fn numbers(self) -> (u64, u64) {
        (self.macrostates as u64, self.transitions as u64)
    }
}

// The number of letters held, and of macrostates in the set.
impl Shown for LiveCounts {
    ghost shown = { live_shown };

    fn numbers(self) -> (u64, u64) {
        (self.letters as u64, self.macrostates as u64)
    }
}

// How many macrostates are left, and after how many letters none was for the first time, or how many there were.
impl Shown for FollowCounts {
    ghost shown = { follow_shown };

    fn numbers(self) -> (u64, u64) {
        (self.left as u64, self.letters as u64)
    }
}

// The lengths of lead-in and cycle.
impl Shown for Lengths {
    ghost shown = { lengths_shown };

    fn numbers(self) -> (u64, u64) {
        (self.lead as u64, self.cycle as u64)
    }
}

// The number of words on the sheet, and of cycles filled.
impl Shown for Totals {
    ghost shown = { totals_shown };

    fn numbers(self) -> (u64, u64) {
        (self.words as u64, self.cycles as u64)
    }
}
