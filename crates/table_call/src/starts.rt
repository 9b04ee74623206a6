// The lowest number where an accepting run over a word begins, by which the judge on a table answers: one of the initial numbers that are
// marked at place 0.
ghost use Rattle.std.specs.Prelude.{◌≡◌, ◌&&◌, ◌<◌, ◌≤◌, ltb, length};
ghost use Rattle.sets.specs.Masks.{bit};
ghost use Rattle.theory.specs.Macrostate.{begun};
ghost use Rattle.table_lent.specs.Lent.{in_both};
ghost use Rattle.table_call.specs.Starts.{Begins, Earliest};
ghost use Rattle.table_runs.specs.Tracks.{WordReady};
ghost use Rattle.table_call.specs.Starts.{starts_at, Lowest};

use codes::is_initial;
use table_lent::{count, element};
use table_runs::fill;

// Whether a marked number is one where a run may begin.
fn is_start(code: u64, initial: u32, mark: u8) -> bool
    requires { initial < 8 }
    ensures { result ≡ ltb 0 mark && begun (λ c. bit c initial) code }
{
    if mark == 0 {
        return false;
    }
    is_initial(code, initial)
}

// The lowest marked number where a run may begin, or the number of codes.
#[tactic(auto, unfolding(crate::specs::Starts::starts_at))]
fn lowest_start(codes: &[u64], codebytes: &[u8], initial: u32, marks: &[u8]) -> usize
    requires { (initial < 8) × (length (in_both codes.now codebytes.now).numbers ≤ length marks.now) }
    ensures { Lowest (length (in_both codes.now codebytes.now).numbers)
        (starts_at (λ c. bit c initial) (in_both codes.now codebytes.now).numbers marks.now) result }
{
    let n = count(codes, codebytes);
    for m in 0..n {
        if is_start(element(codes, codebytes, m), initial, marks[m]) {
            return m;
        }
    }
    n
}

// The lowest number where an accepting run over the word begins, or the number of codes; one mark for each number and place.
pub fn search(
    initial: u32,
    lead: &[u8],
    cycle: &[u8],
    codes: &[u64],
    codebytes: &[u8],
    moves: &[u64],
    movebytes: &[u8],
    marks: &mut [u8],
) -> usize
    requires { (initial < 8)
        × WordReady (in_both codes.now codebytes.now).numbers (in_both moves.now movebytes.now).numbers lead.now cycle.now
        marks.old }
    ensures { Earliest (length (in_both codes.now codebytes.now).numbers)
        (Begins (λ c. bit c initial) (in_both codes.now codebytes.now).numbers
        (in_both moves.now movebytes.now).numbers lead.now cycle.now) result }
{
    fill(codes, codebytes, moves, movebytes, lead, cycle, marks);
    lowest_start(codes, codebytes, initial, marks)
}
