// The report of the shortest mixed loop of a rule file, for an author whose rule is refused by row 11.

#![tactic(auto)]

ghost use Rattle.std.specs.Prelude.{◌≡◌, length, take};
ghost use Rattle.refusals.specs.Rows.{first_row};
ghost use Rattle.theory.specs.Passing.{WellFormed};
ghost use Rattle.rule_entries.specs.Entries.{rule_of};
ghost use Rattle.file_spec.specs.File.{rule_in};
ghost use Rattle.loop_spec.specs.Loops.{Reported};
ghost use Rattle.loop_spec.specs.Search.{loop_of};
ghost use Rattle.loop_spec.specs.Reported.{slice_rows, formed_rows, report_row, answer, report_of, after, slice_after, told};

use file_clauses::clauses_row;
use file_read::{lay_out, layout_row};
use loop_search::ways::others_of;
use loop_search::{start_of, write_loop};
use refusals::Refusal;
use rule_entries::Head;
use rule_reach::successor_table;

// The report on a well-formed rule: the loop's states to the start of out.
fn search(h: Head, counts: &[u8], clauses: &[u8], out: &mut [u8]) -> Result<Option<usize>, Refusal>
    requires { WellFormed (rule_of h counts.now clauses.now) }
    ensures result_value { let states = loop_of (rule_of h counts.now clauses.now) in
        result ≡ answer (first_row (slice_rows states (length out.old))) states }
    ensures out_after { let states = loop_of (rule_of h counts.now clauses.now) in
        out.new ≡ after (first_row (slice_rows states (length out.old))) states out.old }
{
    let es = successor_table(h, counts, clauses);
    let n = h.n;
    let accepting = h.accepting as u8;
    let s = start_of(&es, n, accepting);
    let t = s.at;
    let k = s.further;
    if n <= k {
        return Ok(None);
    }
    if out.len() <= k {
        return Err(Refusal::Slice);
    }
    write_loop(&es, n, others_of(n, accepting, t), t, k, out);
    Ok(Some(k + 1))
}

// The report on a well-formed rule, after row 20.
fn report(h: Head, counts: &[u8], clauses: &[u8], out: &mut [u8]) -> Result<Option<usize>, Refusal>
    requires { WellFormed (rule_of h counts.now clauses.now) }
    ensures result_value { let rule = rule_of h counts.now clauses.now in
        result ≡ answer (first_row (formed_rows rule (length out.old))) (loop_of rule) }
    ensures out_after { let rule = rule_of h counts.now clauses.now in
        out.new ≡ after (first_row (formed_rows rule (length out.old))) (loop_of rule) out.old }
{
    clauses_row(h, counts, clauses)?;
    search(h, counts, clauses, out)
}

// The shortest mixed loop of a rule file: its states to the start of out.
#[tactic(auto, using(crate::proofs::Rows::reporting))]
pub fn mixed_loop(file: &[u8], out: &mut [u8]) -> Result<Option<usize>, Refusal>
    ensures value { result ≡ report_of file.now (length out.old) }
    ensures out_after { out.new ≡ slice_after file.now out.old }
    ensures reported { report_row file.now (length out.old) ≡ 0
        → Reported (rule_in file.now) (take (told result) out.new) }
{
    layout_row(file)?;
    let l = lay_out(file);
    let h = l.head;
    let at = l.at;
    let c = l.clauses;
    let end = file.len() - 8;
    report(h, &file[at + c..end], &file[at..at + c], out)
}
