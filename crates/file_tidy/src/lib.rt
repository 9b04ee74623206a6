// The tidy tool: writes the file of a rule without the clauses that contain others. Of a file that row 20 alone refuses it makes one that
// is accepted.

#![tactic(auto)]

ghost use Rattle.std.specs.Prelude.{◌≡◌, ◌++◌, ◌+◌, ◌-◌, ◌≤◌, length};
ghost use Rattle.std.specs.Result.{result_and};
ghost use Rattle.refusals.specs.Rows.{first_refusal, first_row};
ghost use Rattle.theory.specs.Passing.{WellFormed};
ghost use Rattle.rule_entries.specs.Entries.{rule_of};
ghost use Rattle.rule_tidy_spec.specs.Tidy.{tidy_rule_lem};
ghost use Rattle.file_spec.specs.File.{clause_count, entry_count, counts_of_lem, clauses_of_lem, part_before_lem, names_of, body_of};
ghost use Rattle.file_spec.specs.Names.{preface_from};
ghost use Rattle.file_write_spec.specs.Written.{slice_rows, after};
ghost use Rattle.file_tidy_spec.specs.Tidied.{tidy_rows, TidyCalled};

use file_rows::trailer::{read_count, read_head};
use file_write::layout::{fill, preface_length};
use refusals::Refusal;
use rule_entries::Head;

// The clause bytes of a file that has room for its parts.
fn clauses_in(f: &[u8]) -> &[u8]
    requires { (8 ≤ length f.now) × (clause_count f.now + entry_count f.now ≤ length f.now - 8) }
    ensures { result.now ≡ clauses_of_lem f.now }
{
    let h = read_head(f);
    let c = read_count(f);
    let n = h.n;
    let s = h.s;
    let at = f.len() - 8 - (c + n * s);
    let end = at + c;
    &f[at..end]
}

// The count bytes of such a file.
fn counts_in(f: &[u8]) -> &[u8]
    requires { (8 ≤ length f.now) × (clause_count f.now + entry_count f.now ≤ length f.now - 8) }
    ensures { result.now ≡ counts_of_lem f.now }
{
    let h = read_head(f);
    let n = h.n;
    let s = h.s;
    let end = f.len() - 8;
    let at = end - n * s;
    &f[at..end]
}

// The part before the first clause of such a file.
fn part_before(f: &[u8]) -> &[u8]
    requires { (8 ≤ length f.now) × (clause_count f.now + entry_count f.now ≤ length f.now - 8) }
    ensures { result.now ≡ part_before_lem f.now }
{
    let l = file_read::lay_out(f);
    let at = l.at;
    &f[..at]
}

// What of the rule's group but row 20 refuses a file, if a row does.
#[tactic(auto, using(crate::proofs::Parts::tidying), unfolding(file_tidy_spec::specs::Tidied::tidy_rows))]
fn rule_row(f: &[u8]) -> Result<(), Refusal>
    ensures { result ≡ first_refusal (tidy_rows f.now) }
{
    file_read::layout_row(f)?;
    let h = read_head(f);
    file_read::components_row(h, counts_in(f), clauses_in(f))?;
    let s = h.s;
    file_names::preface_row(part_before(f), s)
}

// The name bytes of a file that these rows pass.
fn names_of(f: &[u8]) -> &[u8]
    requires { first_row (tidy_rows f.now) ≡ 0 }
    ensures { result.now ≡ names_of f.now }
{
    let h = read_head(f);
    let s = h.s;
    file_names::names_in(part_before(f), s)
}

// Writes the file of a tidied rule with names to the start of out and answers its length, or refuses by 16 and leaves out as it was.
fn write_tidied(
    h: Head,
    counts: &[u8],
    clauses: &[u8],
    names: &[u8],
    out: &mut [u8],
) -> Result<usize, Refusal>
    requires { WellFormed (rule_of h counts.now clauses.now) × (length names.now ≤ 128) }
    ensures result_value { let file = preface_from names.now
        ++ body_of (tidy_rule_lem (rule_of h counts.now clauses.now)) in result
        ≡ result_and (first_refusal (slice_rows (length out.old) file)) (Ok (length file)) }
    ensures out_after { let file = preface_from names.now
        ++ body_of (tidy_rule_lem (rule_of h counts.now clauses.now)) in out.new
        ≡ after (first_row (slice_rows (length out.old) file)) file out.old }
{
    let mut counts2 = [0u8; 128];
    let mut clauses2 = [0u8; 1024];
    let kept = rule_tidy::tidy_rule(h, counts, clauses, &mut counts2, &mut clauses2);
    let entries = counts.len();
    let at = preface_length(names);
    let length = at + kept + entries + 8;
    if out.len() < length {
        return Err(Refusal::Slice);
    }
    fill(h, &counts2[..entries], &clauses2[..kept], names, at, out);
    Ok(length)
}

// Writes the file of a file's tidied rule, with its names, to the start of out and answers its length,
// or refuses by the rule's group but 20, and by 16, and leaves out as it was.
pub fn tidy(file: &[u8], out: &mut [u8]) -> Result<usize, Refusal>
    ensures { TidyCalled file.now out.old out.new result }
{
    rule_row(file)?;
    write_tidied(
        read_head(file),
        counts_in(file),
        clauses_in(file),
        names_of(file),
        out,
    )
}
