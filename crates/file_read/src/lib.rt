// The reader of rule files. It tries all rows of the rule's group in order, so that the code behind it may count on a rule that passes
// every check; and it finds the preface.

#![tactic(auto)]

ghost use Rattle.std.specs.Prelude.{◌≡◌, ◌+◌, ◌-◌, ◌≤◌, length};
ghost use Rattle.refusals.specs.Rows.{first_refusal};
ghost use Rattle.theory.specs.Passing.{WellFormed};
ghost use Rattle.rule_entries.specs.Entries.{rule_of};
ghost use Rattle.file_spec.specs.File.{clause_count, entry_count, counts_of_lem, clauses_of_lem, names_of};
ghost use Rattle.file_spec.specs.Rows.{trailer_rows, layout_rows, file_rows_lem};
ghost use Rattle.file_spec.specs.RuleRows.{component_rows, formed_rows};
ghost use Rattle.file_spec.specs.Reading.{parts_of, read_of, preface_of};

use file_rows::rule::lists_row;
use file_rows::trailer::{read_count, read_head, trailer_row};
use file_spec::{Layout, Parts};
use refusals::Refusal;
use rule_entries::Head;

// Where the parts of a file stand that has room for them.
pub fn lay_out(f: &[u8]) -> Parts
    requires { (8 ≤ length f.now) × (clause_count f.now + entry_count f.now ≤ length f.now - 8) }
    ensures { result ≡ parts_of f.now }
{
    let head = read_head(f);
    let clauses = read_count(f);
    let n = head.n;
    let s = head.s;
    let at = f.len() - 8 - (clauses + n * s);
    Parts {
        head: head,
        at: at,
        clauses: clauses,
    }
}

// What of rows 8 to 10 refuses the lists of a file that is laid out so and whose trailer passes, if one does.
#[tactic(auto, using(crate::proofs::FileRows::laying), unfolding(file_spec::specs::Rows::layout_rows))]
fn lists_at(f: &[u8], l: Parts) -> Result<(), Refusal>
    requires { (first_refusal (trailer_rows f.now) ≡ Ok tt) × (l ≡ parts_of f.now) }
    ensures { result ≡ first_refusal (layout_rows f.now) }
{
    let h = l.head;
    let n = h.n;
    let at = l.at;
    let c = l.clauses;
    let end = f.len() - 8;
    lists_row(n, &f[at + c..end], &f[at..at + c])
}

// What of rows 1 to 10 refuses a file, if one does.
#[tactic(auto, using(crate::proofs::FileRows::laying), unfolding(file_spec::specs::Rows::layout_rows))]
pub fn layout_row(f: &[u8]) -> Result<(), Refusal>
    ensures { result ≡ first_refusal (layout_rows f.now) }
{
    trailer_row(f)?;
    lists_at(f, lay_out(f))
}

// What of row 11 refuses a well-formed rule: a component is mixed.
#[tactic(auto, unfolding(refusals::specs::Rows::first_refusal, file_spec::specs::RuleRows::component_rows))]
pub fn components_row(h: Head, counts: &[u8], clauses: &[u8]) -> Result<(), Refusal>
    requires { WellFormed (rule_of h counts.now clauses.now) }
    ensures { result ≡ first_refusal (component_rows (rule_of h counts.now clauses.now)) }
{
    if rule_components::is_mixed(h, counts, clauses) {
        return Err(Refusal::Mixed);
    }
    Ok(())
}

// What of rows 20 and 11 refuses a well-formed rule, if one does.
#[tactic(auto, using(refusals::proofs::Rows::refusal_and), unfolding(file_spec::specs::RuleRows::formed_rows))]
pub fn formed_row(h: Head, counts: &[u8], clauses: &[u8]) -> Result<(), Refusal>
    requires { WellFormed (rule_of h counts.now clauses.now) }
    ensures { result ≡ first_refusal (formed_rows (rule_of h counts.now clauses.now)) }
{
    file_clauses::clauses_row(h, counts, clauses)?;
    components_row(h, counts, clauses)
}

// What refuses a file that is laid out so and whose trailer passes, if a row does.
#[tactic(auto, using(crate::proofs::FileRows::laying), unfolding(file_spec::specs::Rows::file_rows_lem, file_spec::specs::Rows::body_rows))]
fn laid_row(f: &[u8], l: Parts) -> Result<(), Refusal>
    requires { (first_refusal (trailer_rows f.now) ≡ Ok tt) × (l ≡ parts_of f.now) }
    ensures { result ≡ first_refusal (file_rows_lem f.now) }
{
    lists_at(f, l)?;
    let h = l.head;
    let s = h.s;
    let at = l.at;
    let c = l.clauses;
    let end = f.len() - 8;
    formed_row(h, &f[at + c..end], &f[at..at + c])?;
    file_names::preface_row(&f[..at], s)
}

// Where the rule of a file stands, or what refuses the file.
#[tactic(auto, using(crate::proofs::FileRows::laying), unfolding(file_spec::specs::Reading::read_of, file_spec::specs::Rows::file_rows_lem, file_spec::specs::Rows::body_rows, file_spec::specs::Rows::layout_rows))]
pub fn read_rule(f: &[u8]) -> Result<Layout, Refusal>
    ensures { result ≡ read_of f.now }
{
    trailer_row(f)?;
    let l = lay_out(f);
    laid_row(f, l)?;
    let h = l.head;
    let s = h.s;
    let at = l.at;
    let c = l.clauses;
    let names = file_names::names_in(&f[..at], s);
    Ok(Layout {
        head: h,
        at: at,
        clauses: c,
        names: names.len(),
    })
}

// The count bytes of an accepted file.
pub fn counts_of(f: &[u8], l: Layout) -> &[u8]
    requires { read_of f.now ≡ Ok l }
    ensures { result.now ≡ counts_of_lem f.now }
{
    let start = l.at + l.clauses;
    let end = f.len() - 8;
    &f[start..end]
}

// The clause bytes of an accepted file.
pub fn clauses_of(f: &[u8], l: Layout) -> &[u8]
    requires { read_of f.now ≡ Ok l }
    ensures { result.now ≡ clauses_of_lem f.now }
{
    let start = l.at;
    let end = start + l.clauses;
    &f[start..end]
}

// The name bytes of an accepted file, 8 for each letter, or none.
pub fn names_of(f: &[u8], l: Layout) -> &[u8]
    requires { read_of f.now ≡ Ok l }
    ensures { result.now ≡ names_of f.now }
{
    let count = l.names;
    if count == 0 {
        return &f[..0];
    }
    let end = l.at - 2;
    let start = end - count;
    &f[start..end]
}

// The preface of a file: the part before its first clause, or the empty part of a refused file.
pub fn preface(f: &[u8]) -> &[u8]
    ensures { result.now ≡ preface_of f.now }
{
    match read_rule(f) {
        Ok(l) => {
            let at = l.at;
            &f[..at]
        }
        Err(_) => &f[..0],
    }
}
