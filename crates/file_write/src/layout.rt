// The bytes of a rule's file, laid out in a slice that has room for them: the writer and the tidy tool both end here.
ghost use Rattle.std.specs.Prelude.{◌≡◌, ◌+◌, ◌≤◌, ◌<◌, length};
ghost use Rattle.std.proofs.Math.Seq.{paste};
ghost use Rattle.rule_entries.specs.Entries.{rule_of};
ghost use Rattle.file_spec.specs.File.{body_of};
ghost use Rattle.file_spec.specs.Names.{preface_from};
ghost use Rattle.file_write_spec.specs.Written.{file_of, after, InBytes};

use file_names::NAMES_TAG;
use file_rows::trailer::TAG;
use rule_entries::Head;
use slice_text::put;

// A number below 256 as a byte.
fn low(x: usize) -> u8
    requires { x < 256 }
    ensures { result ≡ x }
{
    x as u8
}

// The length of the preface that is written for names.
pub fn preface_length(names: &[u8]) -> usize
    requires { length names.now ≤ 128 }
    ensures { result ≡ length (preface_from names.now) }
{
    if names.len() == 0 {
        return 0;
    }
    names.len() + 2
}

// Writes names and 4E 4D to the start of out, or nothing where there are none.
fn fill_names(names: &[u8], out: &mut [u8])
    requires { length (preface_from names.now) ≤ length out.old }
    ensures { let p = preface_from names.now in out.new ≡ paste out.old 0 p (length p) }
{
    if names.len() == 0 {
        return;
    }
    put(out, 0, names);
    put(out, names.len(), &NAMES_TAG);
}

// Writes the clauses, the counts and the trailer of a rule to place at of out.
fn fill_rule(h: Head, counts: &[u8], clauses: &[u8], at: usize, out: &mut [u8])
    requires { InBytes h (length clauses.now) × (at + length clauses.now + length counts.now + 8 ≤ length out.old) }
    ensures { let f = body_of (rule_of h counts.now clauses.now) in
        out.new ≡ paste out.old at f (length f) }
{
    let c = clauses.len();
    let tail = [
        low(h.n),
        low(h.s),
        low(h.initial),
        low(h.accepting),
        low(c % 256),
        low(c / 256),
        TAG[0],
        TAG[1],
    ];
    let middle = at + c;
    let end = middle + counts.len();
    put(out, at, clauses);
    put(out, middle, counts);
    put(out, end, &tail);
}

// Writes the file of a rule with names to the start of out; at is the length of its preface.
pub fn fill(h: Head, counts: &[u8], clauses: &[u8], names: &[u8], at: usize, out: &mut [u8])
    requires { InBytes h (length clauses.now) × (at ≡ length (preface_from names.now))
        × (at + length clauses.now + length counts.now + 8 ≤ length out.old) }
    ensures { out.new
        ≡ after 0 (file_of h counts.now clauses.now names.now) out.old }
{
    fill_names(names, out);
    fill_rule(h, counts, clauses, at, out);
}
