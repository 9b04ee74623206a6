// The entries of a rule on lent slices: where the clauses of an entry stand, and the first of them that a set meets. Builds and judges ask
// here whether a set satisfies an entry.

#![tactic(auto)]

ghost use Rattle.std.specs.Prelude.{◌≡◌, ◌≤◌, ◌<◌, length, take};
ghost use Rattle.sets.specs.Masks.{bit, mask};
ghost use Rattle.sets.specs.Lists.{sum};
ghost use Rattle.theory.specs.Rule.{entry, satisfies};
ghost use Rattle.theory.specs.Passing.{WellFormed};
ghost use Rattle.theory.specs.Components.{named};
ghost use Rattle.rule_entries.specs.Entries.{rule_of};
ghost use Rattle.rule_entries.specs.Met.{met_of};
ghost use Rattle.rule_entries.specs.Starts.{EntryStarts};

// The numbers of a rule; its counts and clauses are lent beside them.
#[derive(Clone, Copy, PartialEq, Eq)]
pub struct Head {
    pub n: usize,
    pub s: usize,
    pub initial: usize,
    pub accepting: usize,
}

// The number of the first of the clauses all of whose states are in the set; a clause is left at its first missing state.
pub fn first_met(set: u8, clauses: &[u8]) -> Option<usize>
    ensures { result ≡ met_of set clauses.now }
{
    let mut j = 0;
    // A loop: 01 names this form, "a label leaves the inner clause or yields the met clause".
    'clauses: loop {
        if clauses.len() <= j {
            break None;
        }
        let mut left = clauses[j];
        // A while: it visits the states of the clause alone.
        while left != 0 {
            let q = u8::trailing_zeros(left);
            if (set >> q) & 1 == 0 {
                j += 1;
                continue 'clauses;
            }
            left &= left - 1;
        }
        break Some(j);
    }
}

// How many clauses the first i entries have.
pub fn clauses_before(counts: &[u8], i: usize) -> usize
    requires { (i ≤ length counts.now) × (i ≤ 65536) }
    ensures { result ≡ sum (take i counts.now) }
{
    counts[..i].iter().map(|count| *count as usize).sum()
}

// The clauses of state q at letter a.
pub fn entry_of<'a>(h: Head, counts: &[u8], clauses: &'a [u8], q: usize, a: usize) -> &'a [u8]
    requires { WellFormed (rule_of h counts.now clauses.now) × (q < h.n) × (a < h.s) }
    ensures { result.now ≡ entry (rule_of h counts.now clauses.now) q a }
{
    let i = q * h.s + a;
    let start = clauses_before(counts, i);
    let end = start + counts[i] as usize;
    &clauses[start..end]
}

// Where the clauses of each entry begin.
pub fn starts_of(counts: &[u8]) -> [u16; 128]
    requires { length counts.now ≤ 128 }
    ensures { EntryStarts counts.now result }
{
    let mut starts = [0u16; 128];
    let mut total: u16 = 0;
    for (i, count) in counts.iter().enumerate() {
        starts[i] = total;
        total += *count as u16;
    }
    starts
}

// The first clause of the entry of state q at letter a that the set meets.
pub fn met_at(
    h: Head,
    counts: &[u8],
    starts: &[u16; 128],
    clauses: &[u8],
    q: usize,
    a: usize,
    set: u8,
) -> Option<usize>
    requires { WellFormed (rule_of h counts.now clauses.now) × EntryStarts counts.now starts.now × (q < h.n) × (a < h.s) }
    ensures { result ≡ met_of set (entry (rule_of h counts.now clauses.now) q a) }
{
    let i = q * h.s + a;
    let start = starts[i] as usize;
    let end = start + counts[i] as usize;
    first_met(set, &clauses[start..end])
}

// Whether the set satisfies the entry of state q at letter a.
pub fn satisfied(
    h: Head,
    counts: &[u8],
    starts: &[u16; 128],
    clauses: &[u8],
    q: usize,
    a: usize,
    set: u8,
) -> bool
    requires { WellFormed (rule_of h counts.now clauses.now) × EntryStarts counts.now starts.now × (q < h.n) × (a < h.s) }
    ensures { result ≡ satisfies h.n (bit set) (entry (rule_of h counts.now clauses.now) q a) }
{
    met_at(h, counts, starts, clauses, q, a, set).is_some()
}

// The union of the clauses.
pub fn named_in(clauses: &[u8]) -> u8
    ensures { result ≡ mask 8 (named clauses.now) }
{
    let mut found: u8 = 0;
    for clause in clauses {
        found |= *clause;
    }
    found
}
