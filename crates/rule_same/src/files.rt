// Sameness of the rules of two files, as it is asked for: the rows of either file first, then numbers, entries and names.
ghost use Rattle.std.specs.Prelude.{◌≡◌, ◌&&◌, eqb};
ghost use Rattle.theory.specs.Rule.{entry};
ghost use Rattle.file_spec.specs.Reading.{read_of};
ghost use Rattle.rule_same.specs.Same.{same_rules_of, same_files_lem, same_bodies_lem};

use crate::entries::same_entries;
use check::same;
use file_spec::Layout;
use refusals::Refusal;
use rule_entries::Head;

// Whether n, s, initial state and accepting mask agree.
fn same_numbers(g: Head, h: Head) -> bool
    ensures { result ≡ (eqb g.n h.n && (eqb g.s h.s && (eqb g.initial h.initial && eqb g.accepting h.accepting))) }
{
    g == h
}

// Whether the rules of two accepted files are the same but for their names.
fn same_bodies(first: &[u8], l: Layout, second: &[u8], m: Layout) -> bool
    requires { (read_of first.now ≡ Ok l) × (read_of second.now ≡ Ok m) }
    ensures { result ≡ same_bodies_lem first.now second.now }
{
    let h = l.head;
    let g = m.head;
    if !same_numbers(h, g) {
        return false;
    }
    same_entries(
        h,
        file_read::counts_of(first, l),
        file_read::clauses_of(first, l),
        file_read::counts_of(second, m),
        file_read::clauses_of(second, m),
    )
}

// Whether the rules of two accepted files are the same.
fn same_files(first: &[u8], l: Layout, second: &[u8], m: Layout) -> bool
    requires { (read_of first.now ≡ Ok l) × (read_of second.now ≡ Ok m) }
    ensures { result ≡ same_files_lem first.now second.now }
{
    if !same(
        file_read::names_of(first, l),
        file_read::names_of(second, m),
    ) {
        return false;
    }
    same_bodies(first, l, second, m)
}

// Whether the rules of two files are the same, or what refuses the first file, else the second.
pub fn same_rules(first: &[u8], second: &[u8]) -> Result<bool, Refusal>
    ensures { result ≡ same_rules_of first.now second.now }
{
    let l = file_read::read_rule(first)?;
    let m = file_read::read_rule(second)?;
    Ok(same_files(first, l, second, m))
}
