// The trailer, which points back from the end of a rule file to all its parts, and the rows 1 to 7 that try it before another byte is read.
ghost use Rattle.std.specs.Prelude.{◌≡◌, ◌<◌, ◌≤◌, length};
ghost use Rattle.refusals.specs.Rows.{first_refusal};
ghost use Rattle.file_spec.specs.File.{trailer, tagged, head_of, clause_count};
ghost use Rattle.file_spec.specs.Rows.{trailer_rows};

use crate::rule::numbers_row;
use refusals::Refusal;
use rule_entries::Head;

// The last two bytes of every rule file.
pub const TAG: [u8; 2] = [0x41, 0x57];

// Byte i of the trailer.
fn trailer_byte(f: &[u8], i: usize) -> u8
    requires { (8 ≤ length f.now) × (i < 8) }
    ensures { result ≡ trailer f.now i }
{
    f[f.len() - 8 + i]
}

// Whether the last two bytes are the tag.
fn tag_ends(f: &[u8]) -> bool
    requires { 8 ≤ length f.now }
    ensures { result ≡ tagged f.now }
{
    if trailer_byte(f, 6) != TAG[0] {
        return false;
    }
    trailer_byte(f, 7) == TAG[1]
}

// The numbers of the trailer, but for the number of clauses.
pub fn read_head(f: &[u8]) -> Head
    requires { 8 ≤ length f.now }
    ensures { result ≡ head_of f.now }
{
    Head {
        n: trailer_byte(f, 0) as usize,
        s: trailer_byte(f, 1) as usize,
        initial: trailer_byte(f, 2) as usize,
        accepting: trailer_byte(f, 3) as usize,
    }
}

// The number of clauses that the trailer says, low byte first.
pub fn read_count(f: &[u8]) -> usize
    requires { 8 ≤ length f.now }
    ensures { (result ≡ clause_count f.now) × (result < 65536) }
{
    trailer_byte(f, 4) as usize + 256 * (trailer_byte(f, 5) as usize)
}

// What of rows 1 to 7 refuses a file's trailer, if one does.
#[tactic(auto, using(refusals::proofs::Rows::refusal_and, file_spec::proofs::Numbers::ranges), unfolding(refusals::specs::Rows::first_refusal, file_spec::specs::Rows::trailer_rows))]
pub fn trailer_row(f: &[u8]) -> Result<(), Refusal>
    ensures { result ≡ first_refusal (trailer_rows f.now) }
{
    if f.len() < 8 {
        return Err(Refusal::ShortFile);
    }
    if !tag_ends(f) {
        return Err(Refusal::NoTag);
    }
    let h = read_head(f);
    numbers_row(h)?;
    let c = read_count(f);
    let n = h.n;
    let s = h.s;
    if f.len() - 8 < c + n * s {
        return Err(Refusal::Cut);
    }
    Ok(())
}
