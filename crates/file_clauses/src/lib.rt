// Row 20: an entry with a clause that contains another of its clauses. Such a clause adds nothing, but can glue components together.

#![tactic(auto)]

ghost use Rattle.std.specs.Prelude.{◌≡◌, ◌<◌, length};
ghost use Rattle.sets.specs.Tests.{some_below};
ghost use Rattle.refusals.specs.Rows.{first_refusal};
ghost use Rattle.theory.specs.Rule.{entry};
ghost use Rattle.theory.specs.Passing.{WellFormed};
ghost use Rattle.rule_entries.specs.Entries.{rule_of};
ghost use Rattle.file_spec.specs.RuleRows.{contains_at_lem, nested, some_nested, clause_rows};

use refusals::Refusal;
use rule_entries::Head;

// Whether i and j are two places, and the clause at i contains the one at j.
fn contains_at(clauses: &[u8], i: usize, j: usize) -> bool
    requires { (i < length clauses.now) × (j < length clauses.now) }
    ensures { result ≡ contains_at_lem 8 clauses.now i j }
{
    if i == j {
        return false;
    }
    clauses[j] & clauses[i] == clauses[j]
}

// Whether the clause at i contains another one.
fn contains_another(clauses: &[u8], i: usize) -> bool
    requires { i < length clauses.now }
    ensures { result ≡ some_below (length clauses.now) (λ j. contains_at_lem 8 clauses.now i j) }
{
    (0..clauses.len()).any(|j| contains_at(clauses, i, j))
}

// Whether some clause of an entry contains another.
fn is_nested(clauses: &[u8]) -> bool
    ensures { result ≡ nested 8 clauses.now }
{
    (0..clauses.len()).any(|i| contains_another(clauses, i))
}

// Whether some entry of state q is nested.
fn nested_state(h: Head, counts: &[u8], clauses: &[u8], q: usize) -> bool
    requires { WellFormed (rule_of h counts.now clauses.now) × (q < h.n) }
    ensures { result ≡ some_below h.s (λ a. nested h.n (entry (rule_of h counts.now clauses.now) q a)) }
{
    for a in 0..h.s {
        if is_nested(rule_entries::entry_of(h, counts, clauses, q, a)) {
            return true;
        }
    }
    false
}

// Whether some entry is nested.
fn any_nested(h: Head, counts: &[u8], clauses: &[u8]) -> bool
    requires { WellFormed (rule_of h counts.now clauses.now) }
    ensures { result ≡ some_nested (rule_of h counts.now clauses.now) }
{
    (0..h.n).any(|q| nested_state(h, counts, clauses, q))
}

// What of row 20 refuses a well-formed rule: an entry is nested.
#[tactic(auto, unfolding(refusals::specs::Rows::first_refusal, file_spec::specs::RuleRows::clause_rows))]
pub fn clauses_row(h: Head, counts: &[u8], clauses: &[u8]) -> Result<(), Refusal>
    requires { WellFormed (rule_of h counts.now clauses.now) }
    ensures { result ≡ first_refusal (clause_rows (rule_of h counts.now clauses.now)) }
{
    if any_nested(h, counts, clauses) {
        return Err(Refusal::ClauseInside);
    }
    Ok(())
}
