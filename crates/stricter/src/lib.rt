// The comparison of two rules: is every word that rule A accepts accepted by rule B? By the tables of both: A's own, and that of the words
// that B rejects.

#![tactic(auto)]

ghost use Rattle.std.specs.Prelude.{◌≡◌, true, false, ◌||◌, ltb, ◌*◌, ◌≤◌, length, replicate};
ghost use Rattle.file_spec.specs.File.{rule_in};
ghost use Rattle.file_spec.specs.Reading.{read_of};
ghost use Rattle.stricter_entry_spec.specs.Rows.{slices_of};
ghost use Rattle.stricter_entry_spec.specs.Compared.{Compared};
ghost use Rattle.stricter.specs.Steps.{Ready, other_row, pair_row, row_of_lem, ByRow, FilesBy};

use build::Counts;
use file_read::read_rule;
use file_spec::Layout;
use refusals::Refusal;
use stricter_entry_spec::{BothCounts, Comparison};
use stricter_spec::Found;

// One of the two rules: where it stands in its file, and the counts of its table in the rooms, A's own or that of the words that B rejects.
#[derive(Clone, Copy)]
struct Side {
    layout: Layout,
    counts: Counts,
}

// ---- the rooms

// Sets both rooms of a table to zero throughout.
fn zero_rooms(codes: &mut [u64], transitions: &mut [u64])
    ensures codes_after { codes.new ≡ replicate (length codes.old) 0 }
    ensures transitions_after { transitions.new ≡ replicate (length transitions.old) 0 }
{
    slice_search::zero_all(codes);
    slice_search::zero_all(transitions);
}

// ---- the search

// Whether the word slice has under 3 * pairs letters or the scratch under pairs bytes.
fn lacks_room(pairs: usize, word: &[u8], scratch: &[u8]) -> bool
    requires { pairs ≤ 4294967296 }
    ensures { result ≡ (ltb (length word.now) (3 * pairs) || ltb (length scratch.now) pairs) }
{
    if word.len() < 3 * pairs {
        return true;
    }
    scratch.len() < pairs
}

// Looks for a word that both tables accept.
fn search_tables(
    a: &[u8],
    x: Side,
    b: &[u8],
    y: Side,
    acodes: &mut [u64],
    atransitions: &mut [u64],
    bcodes: &mut [u64],
    btransitions: &mut [u64],
    word: &mut [u8],
    scratch: &mut [u8],
) -> Comparison
    requires { Ready a.now true x acodes.old atransitions.old × Ready b.now false y bcodes.old btransitions.old
        × ((rule_in a.now).s ≡ (rule_in b.now).s) × (x.counts.macrostates * y.counts.macrostates ≤ length scratch.old)
        × (3 * (x.counts.macrostates * y.counts.macrostates) ≤ length word.old) }
    ensures { ByRow (rule_in a.now) (rule_in b.now) (Ok tt)
        (slices_of acodes.old atransitions.old bcodes.old btransitions.old
        word.old scratch.old) (Ok result)
        (slices_of acodes.new atransitions.new bcodes.new btransitions.new
        word.new scratch.new) }
{
    let n = x.counts;
    let m = y.counts;
    let na = n.macrostates;
    let ta = n.transitions;
    let nb = m.macrostates;
    let tb = m.transitions;
    match stricter_search::search(
        a,
        x.layout,
        &mut acodes[..na],
        &mut atransitions[..ta],
        b,
        y.layout,
        &mut bcodes[..nb],
        &mut btransitions[..tb],
        word,
        scratch,
    ) {
        Found::Nothing => Comparison::Yes(BothCounts { a: n, b: m }),
        Found::Word(lead, cycle) => Comparison::No(BothCounts { a: n, b: m }, lead, cycle),
    }
}

// Compares two rules by their tables. 29 if word or scratch is too short; all four rooms are zero throughout then.
fn compare_tables(
    a: &[u8],
    x: Side,
    b: &[u8],
    y: Side,
    acodes: &mut [u64],
    atransitions: &mut [u64],
    bcodes: &mut [u64],
    btransitions: &mut [u64],
    word: &mut [u8],
    scratch: &mut [u8],
) -> Result<Comparison, Refusal>
    requires { Ready a.now true x acodes.old atransitions.old × Ready b.now false y bcodes.old btransitions.old
        × ((rule_in a.now).s ≡ (rule_in b.now).s) }
    ensures { FilesBy pair_row a.now b.now
        (slices_of acodes.old atransitions.old bcodes.old btransitions.old
        word.old scratch.old) result
        (slices_of acodes.new atransitions.new bcodes.new btransitions.new
        word.new scratch.new) }
{
    let pairs = x.counts.macrostates * y.counts.macrostates;
    if lacks_room(pairs, word, scratch) {
        zero_rooms(acodes, atransitions);
        zero_rooms(bcodes, btransitions);
        return Err(Refusal::PairRoom);
    }
    Ok(search_tables(
        a,
        x,
        b,
        y,
        acodes,
        atransitions,
        bcodes,
        btransitions,
        word,
        scratch,
    ))
}

// ---- the rules

// Compares two rules once A's table is built: builds that of the words that B rejects. 17 or 18 if it has too little room; all four rooms
// are zero throughout then.
fn compare_other(
    a: &[u8],
    x: Side,
    b: &[u8],
    l: Layout,
    acodes: &mut [u64],
    atransitions: &mut [u64],
    bcodes: &mut [u64],
    btransitions: &mut [u64],
    word: &mut [u8],
    scratch: &mut [u8],
) -> Result<Comparison, Refusal>
    requires { Ready a.now true x acodes.old atransitions.old × (read_of b.now ≡ Ok l)
        × ((rule_in a.now).s ≡ (rule_in b.now).s) }
    ensures { FilesBy other_row a.now b.now
        (slices_of acodes.old atransitions.old bcodes.old btransitions.old
        word.old scratch.old) result
        (slices_of acodes.new atransitions.new bcodes.new btransitions.new
        word.new scratch.new) }
{
    match build::build_accepted(b, l, false, bcodes, btransitions) {
        Err(refusal) => {
            zero_rooms(acodes, atransitions);
            Err(refusal)
        }
        Ok(m) => compare_tables(
            a,
            x,
            b,
            Side {
                layout: l,
                counts: m,
            },
            acodes,
            atransitions,
            bcodes,
            btransitions,
            word,
            scratch,
        ),
    }
}

// Compares the rules of two accepted files.
fn compare_files(
    a: &[u8],
    l: Layout,
    b: &[u8],
    m: Layout,
    acodes: &mut [u64],
    atransitions: &mut [u64],
    bcodes: &mut [u64],
    btransitions: &mut [u64],
    word: &mut [u8],
    scratch: &mut [u8],
) -> Result<Comparison, Refusal>
    requires { (read_of a.now ≡ Ok l) × (read_of b.now ≡ Ok m) }
    ensures { FilesBy row_of_lem a.now b.now
        (slices_of acodes.old atransitions.old bcodes.old btransitions.old
        word.old scratch.old) result
        (slices_of acodes.new atransitions.new bcodes.new btransitions.new
        word.new scratch.new) }
{
    if l.head.s != m.head.s {
        return Err(Refusal::OtherLetters);
    }
    match build::build_accepted(a, l, true, acodes, atransitions) {
        Err(refusal) => {
            zero_rooms(bcodes, btransitions);
            Err(refusal)
        }
        Ok(n) => compare_other(
            a,
            Side {
                layout: l,
                counts: n,
            },
            b,
            m,
            acodes,
            atransitions,
            bcodes,
            btransitions,
            word,
            scratch,
        ),
    }
}

// Whether every word that A accepts is accepted by B, or the lengths of a word that A accepts and B rejects, which it writes to the start
// of the word slice; leaves A's table and that of the words that B rejects in the rooms, zeros after them, and the scratch zero
// throughout. If a row refuses, it answers the first refusal: the rules' rows and 28 leave all slices as they are, 17, 18 and 29
// set all four rooms to zero throughout.
pub fn stricter(
    a: &[u8],
    b: &[u8],
    acodes: &mut [u64],
    atransitions: &mut [u64],
    bcodes: &mut [u64],
    btransitions: &mut [u64],
    word: &mut [u8],
    scratch: &mut [u8],
) -> Result<Comparison, Refusal>
    ensures { Compared a.now b.now
        (slices_of acodes.old atransitions.old bcodes.old btransitions.old
        word.old scratch.old) result
        (slices_of acodes.new atransitions.new bcodes.new btransitions.new
        word.new scratch.new) }
{
    let l = read_rule(a)?;
    let m = read_rule(b)?;
    compare_files(
        a,
        l,
        b,
        m,
        acodes,
        atransitions,
        bcodes,
        btransitions,
        word,
        scratch,
    )
}
