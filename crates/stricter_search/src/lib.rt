// The search for a word that two tables accept: the pairs from which both can, from the files of the rules, a start pair among them, and
// the word.

#![tactic(auto)]

pub mod files;

ghost use Rattle.std.specs.Prelude.{◌≡◌, not, ◌*◌, ◌≤◌, length, replicate};
ghost use Rattle.sets.specs.Masks.{bit};
ghost use Rattle.sets.specs.Tests.{Set};
ghost use Rattle.theory.specs.Macrostate.{holds_initial};
ghost use Rattle.rejecting_spec.specs.Rejecting.{lacks_initial};
ghost use Rattle.stricter_spec.specs.Search.{Searchable, Searched};
ghost use Rattle.stricter_marks.specs.Sorted.{Sorted};
ghost use Rattle.stricter_search.specs.Lists.{FileLists};

use crate::files::mark_files;
use file_spec::Layout;
use slice_search::bytes::fill_with;
use stricter_spec::Found;
use stricter_word::lasso::shared_word;

// ---- the search

// The search with a mark for each pair, where the pairs are sorted out and a start pair is known if there is one.
fn search_pairs(
    acodes: &[u64],
    amoves: &[u64],
    bcodes: &[u64],
    bmoves: &[u64],
    start: usize,
    word: &mut [u8],
    marks: &mut [u8],
) -> Found
    requires { Searchable acodes.now amoves.now × Searchable bcodes.now bmoves.now
        × ((s : Set) × (t : Set) × Sorted acodes.now amoves.now s bcodes.now bmoves.now t marks.old start)
        × (3 * (length acodes.now * length bcodes.now) ≤ length word.old) }
    ensures { (s t : Set) → Sorted acodes.now amoves.now s bcodes.now bmoves.now t
        marks.old start → Searched acodes.now amoves.now s
        bcodes.now bmoves.now t word.old word.new result }
{
    if marks.len() <= start {
        return Found::Nothing;
    }
    shared_word(acodes, amoves, bcodes, bmoves, start, word, marks)
}

// The search on the tables of two files, with a mark for each pair.
fn search_files(
    a: &[u8],
    l: Layout,
    acodes: &mut [u64],
    amoves: &mut [u64],
    b: &[u8],
    m: Layout,
    bcodes: &mut [u64],
    bmoves: &mut [u64],
    word: &mut [u8],
    marks: &mut [u8],
) -> Found
    requires { FileLists a.now l holds_initial acodes.old amoves.old × FileLists b.now m lacks_initial bcodes.old bmoves.old
        × (length marks.old ≡ length acodes.old * length bcodes.old)
        × (3 * (length acodes.old * length bcodes.old) ≤ length word.old) }
    ensures searched { Searched acodes.old amoves.old (λ c. bit c l.head.initial)
        bcodes.old bmoves.old (λ c. not (bit c m.head.initial)) word.old word.new result }
    ensures acodes_unchanged { (acodes.new ≡ acodes.old) × (amoves.new ≡ amoves.old) }
    ensures bcodes_unchanged { (bcodes.new ≡ bcodes.old) × (bmoves.new ≡ bmoves.old) }
{
    let start = mark_files(a, l, acodes, amoves, b, m, bcodes, bmoves, marks);
    search_pairs(acodes, amoves, bcodes, bmoves, start, word, marks)
}

// A word that A's table and that of the words that B rejects both accept, or that there is none; its letters are written at the start of
// the word slice. The tables are as they were in the end, the scratch is zero throughout.
pub fn search(
    a: &[u8],
    l: Layout,
    acodes: &mut [u64],
    amoves: &mut [u64],
    b: &[u8],
    m: Layout,
    bcodes: &mut [u64],
    bmoves: &mut [u64],
    word: &mut [u8],
    scratch: &mut [u8],
) -> Found
    requires { FileLists a.now l holds_initial acodes.old amoves.old × FileLists b.now m lacks_initial bcodes.old bmoves.old
        × (length acodes.old * length bcodes.old ≤ length scratch.old)
        × (3 * (length acodes.old * length bcodes.old) ≤ length word.old) }
    ensures searched { Searched acodes.old amoves.old (λ c. bit c l.head.initial)
        bcodes.old bmoves.old (λ c. not (bit c m.head.initial)) word.old word.new result }
    ensures acodes_unchanged { (acodes.new ≡ acodes.old) × (amoves.new ≡ amoves.old) }
    ensures bcodes_unchanged { (bcodes.new ≡ bcodes.old) × (bmoves.new ≡ bmoves.old) }
    ensures scratch_after { scratch.new ≡ replicate (length scratch.old) 0 }
{
    let pairs = acodes.len() * bcodes.len();
    let found = search_files(
        a,
        l,
        acodes,
        amoves,
        b,
        m,
        bcodes,
        bmoves,
        word,
        &mut scratch[..pairs],
    );
    fill_with(scratch, 0);
    found
}
