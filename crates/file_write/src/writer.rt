// The writer of rule files. It tries rule, names and room before it writes a byte, so that a refusal leaves the slice as it was.
ghost use Rattle.std.specs.Prelude.{◌≡◌, [], length};
ghost use Rattle.refusals.specs.Rows.{first_refusal};
ghost use Rattle.file_write_spec.specs.Written.{head_from, rule_rows, written_of, slice_after};

use crate::layout::{fill, preface_length};
use refusals::Refusal;
use rule_entries::Head;

// What refuses a rule, if a row does.
#[tactic(auto, using(file_write_spec::proofs::Laws::writing), unfolding(refusals::specs::Rows::first_refusal, file_write_spec::specs::Written::rule_rows))]
fn rule_row(h: Head, counts: &[u8], clauses: &[u8]) -> Result<(), Refusal>
    ensures { result ≡ first_refusal (rule_rows h counts.now clauses.now) }
{
    file_rows::rule::numbers_row(h)?;
    let n = h.n;
    let s = h.s;
    if counts.len() != n * s {
        return Err(Refusal::Cut);
    }
    file_rows::rule::lists_row(n, counts, clauses)?;
    file_read::formed_row(h, counts, clauses)
}

// Writes the file of a rule with names, none or 8 bytes a letter, to the start of out and answers its length, or refuses by the rule's
// rows and 16 and leaves out as it was.
pub fn write_head(
    h: Head,
    counts: &[u8],
    clauses: &[u8],
    names: &[u8],
    out: &mut [u8],
) -> Result<usize, Refusal>
    ensures value { result
        ≡ written_of h counts.now clauses.now names.now (length out.old) }
    ensures out_after { out.new
        ≡ slice_after h counts.now clauses.now names.now out.old }
{
    rule_row(h, counts, clauses)?;
    let s = h.s;
    file_names::given_row(names, s)?;
    let at = preface_length(names);
    let length = at + clauses.len() + counts.len() + 8;
    if out.len() < length {
        return Err(Refusal::Slice);
    }
    fill(h, counts, clauses, names, at, out);
    Ok(length)
}

// Writes the file of a rule given by numbers of 32 bits.
pub fn write_named(
    n: u32,
    s: u32,
    initial: u32,
    accepting: u32,
    counts: &[u8],
    clauses: &[u8],
    names: &[u8],
    out: &mut [u8],
) -> Result<usize, Refusal>
    ensures value { result
        ≡ written_of (head_from n s initial accepting) counts.now clauses.now names.now
        (length out.old) }
    ensures out_after { out.new
        ≡ slice_after (head_from n s initial accepting) counts.now clauses.now names.now
        out.old }
{
    let h = Head {
        n: n as usize,
        s: s as usize,
        initial: initial as usize,
        accepting: accepting as usize,
    };
    write_head(h, counts, clauses, names, out)
}

// Writes the file of a rule without names.
pub fn write_rule(
    n: u32,
    s: u32,
    initial: u32,
    accepting: u32,
    counts: &[u8],
    clauses: &[u8],
    out: &mut [u8],
) -> Result<usize, Refusal>
    ensures value { result
        ≡ written_of (head_from n s initial accepting) counts.now clauses.now [] (length out.old) }
    ensures out_after { out.new
        ≡ slice_after (head_from n s initial accepting) counts.now clauses.now [] out.old }
{
    write_named(n, s, initial, accepting, counts, clauses, &counts[..0], out)
}
