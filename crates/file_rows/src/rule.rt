// The rows 3 to 6 and 8 to 10 that try a rule's numbers, counts and clauses. They ask nothing of a file, so that the writer tries them too.
ghost use Rattle.std.specs.Prelude.{◌≡◌, ◌≤◌, length};
ghost use Rattle.sets.specs.Lists.{sum};
ghost use Rattle.refusals.specs.Rows.{first_refusal};
ghost use Rattle.file_spec.specs.RuleRows.{number_rows, list_rows};

use refusals::Refusal;
use rule_entries::Head;
use slice_search::any_from;

// The sum of the bytes.
fn total(xs: &[u8]) -> usize
    requires { length xs.now ≤ 128 }
    ensures { result ≡ sum xs.now }
{
    xs.iter().map(|x| *x as usize).sum()
}

// What of rows 3 to 6 refuses a rule's numbers, if one does.
#[tactic(auto, using(sets::proofs::Bits::shl_one), unfolding(refusals::specs::Rows::first_refusal, file_spec::specs::RuleRows::number_rows))]
pub fn numbers_row(h: Head) -> Result<(), Refusal>
    ensures { result ≡ first_refusal (number_rows h) }
{
    let n = h.n;
    let s = h.s;
    let initial = h.initial;
    let accepting = h.accepting;
    if n < 1 || 8 < n {
        return Err(Refusal::States);
    }
    if s < 1 || 16 < s {
        return Err(Refusal::Letters);
    }
    let states = 1usize << n;
    if n <= initial {
        return Err(Refusal::Initial);
    }
    if states <= accepting {
        return Err(Refusal::Accepting);
    }
    Ok(())
}

// What of rows 8 to 10 refuses a rule's counts and clauses, if one does.
#[tactic(auto, using(sets::proofs::Bits::shl_one), unfolding(refusals::specs::Rows::first_refusal, file_spec::specs::RuleRows::list_rows))]
pub fn lists_row(n: usize, counts: &[u8], clauses: &[u8]) -> Result<(), Refusal>
    requires { (n ≤ 8) × (length counts.now ≤ 128) }
    ensures { result ≡ first_refusal (list_rows n counts.now clauses.now) }
{
    if any_from(counts, 9) {
        return Err(Refusal::Count);
    }
    if total(counts) != clauses.len() {
        return Err(Refusal::Sum);
    }
    if any_from(clauses, 1usize << n) {
        return Err(Refusal::Clause);
    }
    Ok(())
}
