// The answer of the comparison of two rules as the eight numbers of the C interface.

#![tactic(auto)]

ghost use Rattle.std.specs.Prelude.{◌≡◌};
ghost use Rattle.mulgreddi_answers_stricter.specs.Answers.{told_as, comparison_answer};

use refusals::Refusal;
use stricter_entry_spec::{BothCounts, Comparison};

// refusal is 0 where the input was served; else all that follows is 0.
#[repr(C)]
#[derive(Clone, Copy)]
pub struct Numbers {
    pub refusal: u64,
    pub stricter: u64,
    pub lead: u64,
    pub cycle: u64,
    pub amacrostates: u64,
    pub atransitions: u64,
    pub bmacrostates: u64,
    pub btransitions: u64,
}

// The answer of a served call.
fn told(stricter: u64, lead: usize, cycle: usize, sizes: BothCounts) -> Numbers
    ensures { result ≡ told_as stricter lead cycle sizes }
{
    let a = sizes.a;
    let b = sizes.b;
    Numbers {
        refusal: 0,
        stricter,
        lead: lead as u64,
        cycle: cycle as u64,
        amacrostates: a.macrostates as u64,
        atransitions: a.transitions as u64,
        bmacrostates: b.macrostates as u64,
        btransitions: b.transitions as u64,
    }
}

// 1 for yes, 0 for no with the lengths of lead-in and cycle, and the counts of both tables.
#[tactic(auto, unfolding(crate::specs::Answers::comparison_answer))]
pub fn compared(answer: Result<Comparison, Refusal>) -> Numbers
    ensures { result ≡ comparison_answer answer }
{
    match answer {
        Ok(Comparison::Yes(sizes)) => told(1, 0, 0, sizes),
        Ok(Comparison::No(tables, lead, cycle)) => told(0, lead, cycle, tables),
        Err(refusal) => Numbers {
            refusal: refusal.row() as u64,
            stricter: 0,
            lead: 0,
            cycle: 0,
            amacrostates: 0,
            atransitions: 0,
            bmacrostates: 0,
            btransitions: 0,
        },
    }
}
