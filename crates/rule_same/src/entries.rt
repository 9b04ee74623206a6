// Whether two rules agree in their entries. Only the clauses of each are tried on the other, taken as sets, in place of all sets of states.
ghost use Rattle.std.specs.Prelude.{◌≡◌, ◌&&◌, ◌<◌};
ghost use Rattle.sets.specs.Tests.{every};
ghost use Rattle.sets.specs.Masks.{bit};
ghost use Rattle.sets.specs.Lists.{all_of};
ghost use Rattle.theory.specs.Rule.{entry, satisfies};
ghost use Rattle.theory.specs.Passing.{WellFormed};
ghost use Rattle.rule_entries.specs.Entries.{rule_of};
ghost use Rattle.rule_same.specs.Same.{same_entry_lem, same_entries_lem};

use rule_entries::Head;

// Whether every clause of the first entry, taken as a set, satisfies the second.
fn clauses_satisfy(first: &[u8], second: &[u8]) -> bool
    ensures { result ≡ all_of first.now (λ c. satisfies 8 (bit c) second.now) }
{
    first
        .iter()
        .all(|c| rule_entries::first_met(*c, second).is_some())
}

// Whether the clauses of each of two entries satisfy the other.
fn same_entry(first: &[u8], second: &[u8]) -> bool
    ensures { result
        ≡ (all_of first.now (λ c. satisfies 8 (bit c) second.now)
        && all_of second.now (λ c. satisfies 8 (bit c) first.now)) }
{
    if !clauses_satisfy(first, second) {
        return false;
    }
    clauses_satisfy(second, first)
}

// Whether the entries of state q in two rules with the same numbers are satisfied by the same sets.
fn same_state(
    h: Head,
    counts: &[u8],
    clauses: &[u8],
    counts2: &[u8],
    clauses2: &[u8],
    q: usize,
) -> bool
    requires { WellFormed (rule_of h counts.now clauses.now) × WellFormed (rule_of h counts2.now clauses2.now) × (q < h.n) }
    ensures { result
        ≡ every h.s
        (λ a. same_entry_lem h.n (entry (rule_of h counts.now clauses.now) q a)
        (entry (rule_of h counts2.now clauses2.now) q a)) }
{
    for a in 0..h.s {
        if !same_entry(
            rule_entries::entry_of(h, counts, clauses, q, a),
            rule_entries::entry_of(h, counts2, clauses2, q, a),
        ) {
            return false;
        }
    }
    true
}

// Whether all entries of two rules with the same numbers are satisfied by the same sets.
pub fn same_entries(h: Head, counts: &[u8], clauses: &[u8], counts2: &[u8], clauses2: &[u8]) -> bool
    requires { WellFormed (rule_of h counts.now clauses.now) × WellFormed (rule_of h counts2.now clauses2.now) }
    ensures { result
        ≡ same_entries_lem (rule_of h counts.now clauses.now)
        (rule_of h counts2.now clauses2.now) }
{
    for q in 0..h.n {
        if !same_state(h, counts, clauses, counts2, clauses2, q) {
            return false;
        }
    }
    true
}
