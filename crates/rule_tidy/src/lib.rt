// Tidying a rule: of each entry the clauses that properly contain no other stay, each once. The entry is satisfied by the same sets.

#![tactic(auto)]

ghost use Rattle.std.specs.Prelude.{◌≡◌, ◌≤◌, ◌<◌, length, take};
ghost use Rattle.sets.specs.Lists.{any_of, sum};
ghost use Rattle.theory.specs.Passing.{WellFormed};
ghost use Rattle.rule_entries.specs.Entries.{rule_of};
ghost use Rattle.rule_tidy_spec.specs.Tidy.{drops, tidy_entry_lem, tidy_counts, tidy_clauses, tidy_rule_lem};
ghost use Rattle.rule_tidy.specs.Filled.{containing, filled, Kept};

use rule_entries::Head;

// Whether the clause c contains the clause d, or contains it properly. A clause contains itself, and not properly; another
// is contained properly or not at all.
fn contains_clause(c: u8, d: u8, properly: bool) -> bool
    ensures { result ≡ containing properly c d }
{
    if c == d {
        return !properly;
    }
    d & c == d
}

// Whether it does so for one of the clauses.
fn contains_any(c: u8, clauses: &[u8], properly: bool) -> bool
    ensures { result ≡ any_of clauses.now (containing properly c) }
{
    clauses.iter().any(|d| contains_clause(c, *d, properly))
}

// Whether the clause c of an entry is dropped; kept are the clauses kept before it.
fn is_dropped(clauses: &[u8], kept: &[u8], c: u8) -> bool
    ensures { result ≡ drops 8 clauses.now kept.now c }
{
    if contains_any(c, kept, false) {
        return true;
    }
    contains_any(c, clauses, true)
}

// Puts the clause c of an entry after the first k elements of out, which are the clauses kept before it, unless it is dropped.
// Answers how many are kept.
fn keep(clauses: &[u8], c: u8, out: &mut [u8], k: usize) -> usize
    requires { k < length out.old }
    ensures { Kept clauses.now out.old k c out.new result }
{
    if is_dropped(clauses, &out[..k], c) {
        return k;
    }
    out[k] = c;
    k + 1
}

// Writes what stays of an entry to the start of out and answers how many clauses that is.
fn tidy_entry(clauses: &[u8], out: &mut [u8]) -> usize
    requires { length clauses.now ≤ length out.old }
    ensures value { result ≡ length (tidy_entry_lem 8 clauses.now) }
    ensures out_after { out.new ≡ filled (tidy_entry_lem 8 clauses.now) out.old }
{
    let mut k = 0;
    for c in clauses {
        k = keep(clauses, *c, out, k);
    }
    k
}

// Writes the tidied counts and clauses to the starts of two slices and answers how many clauses there are.
fn tidy_lists(counts: &[u8], clauses: &[u8], counts2: &mut [u8], clauses2: &mut [u8]) -> usize
    requires { (sum counts.now ≡ length clauses.now)
        × (length counts.now ≤ length counts2.old)
        × (length clauses.now ≤ length clauses2.old) }
    ensures value { result ≡ length (tidy_clauses 8 counts.now clauses.now) }
    ensures counts2_after { counts2.new
        ≡ filled (tidy_counts 8 counts.now clauses.now) counts2.old }
    ensures clauses2_after { clauses2.new
        ≡ filled (tidy_clauses 8 counts.now clauses.now) clauses2.old }
{
    let mut from = 0;
    let mut to = 0;
    for (i, count) in counts.iter().enumerate() {
        let next = from + *count as usize;
        let kept = tidy_entry(&clauses[from..next], &mut clauses2[to..]);
        counts2[i] = kept as u8;
        to += kept;
        from = next;
    }
    to
}

// Writes the counts and the clauses of the tidied rule to the starts of two slices and answers how many clauses there are.
pub fn tidy_rule(
    h: Head,
    counts: &[u8],
    clauses: &[u8],
    counts2: &mut [u8],
    clauses2: &mut [u8],
) -> usize
    requires { WellFormed (rule_of h counts.now clauses.now)
        × (length counts.now ≤ length counts2.old)
        × (length clauses.now ≤ length clauses2.old) }
    ensures value { result ≡ length (tidy_rule_lem (rule_of h counts.now clauses.now)).clauses }
    ensures counts2_after { counts2.new
        ≡ filled (tidy_rule_lem (rule_of h counts.now clauses.now)).counts counts2.old }
    ensures clauses2_after { clauses2.new
        ≡ filled (tidy_rule_lem (rule_of h counts.now clauses.now)).clauses clauses2.old }
{
    tidy_lists(counts, clauses, counts2, clauses2)
}
