// Sorts out the pairs of numbers of the tables of two rules, from their files: those from which both can accept are in. Meanwhile tags
// stand in the free bits of both tables, so that they need no room of their own.
ghost use Rattle.std.specs.Prelude.{◌≡◌, not, ℕ, ◌*◌, ◌≤◌, ◌<◌, length};
ghost use mathlib.Core.List.{Memᴰ};
ghost use Rattle.sets.specs.Masks.{bit};
ghost use Rattle.sets.specs.Tests.{Set};
ghost use Rattle.theory.specs.Automaton.{automaton};
ghost use Rattle.theory.specs.Rule.{Rule};
ghost use Rattle.theory.specs.Macrostate.{holds_initial};
ghost use Rattle.rejecting_spec.specs.Rejecting.{lacks_initial};
ghost use Rattle.file_spec.specs.File.{rule_in};
ghost use Rattle.trim_spec.specs.Trimmed.{live_marks};
ghost use Rattle.stricter_spec.specs.Tags.{ToldCodes, TaggedMoves, row_of_lem, plain, untagged};
ghost use Rattle.stricter_spec.specs.Steps.{CoresFit};
ghost use Rattle.stricter_laws.specs.Tests.{starts_in};
ghost use Rattle.stricter_marks.specs.Rows.{Standing};
ghost use Rattle.stricter_marks.specs.Sorted.{Sorted, CoresSorted};
ghost use Rattle.stricter_search.specs.Lists.{FileLists};

use file_spec::Layout;
use stricter_marks::pairs::mark_pairs;
use stricter_tags::{tag_live, untag};

// Puts tags on the table of a file's rule; the number of its components. The bytes are lost.
fn tag_file(file: &[u8], l: Layout, codes: &mut [u64], moves: &mut [u64], live: &mut [u8]) -> usize
    requires { ((start : Rule → Set) × FileLists file.now l start codes.old moves.old)
        × (length codes.old ≤ length live.old) }
    ensures value { result ≡ (automaton (rule_in file.now)).components }
    ensures told_codes { ToldCodes codes.old (live_marks codes.old moves.old) codes.new
        × TaggedMoves (automaton (rule_in file.now)) codes.old moves.old moves.new }
{
    let p = build_lists::prepare::prepare(file, l, true);
    let parts = p.parts;
    let opens = build_lists::prepare::file_opens(file, l);
    let shape = p.shape;
    tag_live(shape, &opens, &parts, codes, moves, live);
    shape.components
}

// Sorts out the pairs of two tagged tables, and takes the tags off.
fn mark_tagged(
    acodes: &mut [u64],
    amoves: &mut [u64],
    acount: usize,
    ainitial: u32,
    bcodes: &mut [u64],
    bmoves: &mut [u64],
    bcount: usize,
    binitial: u32,
    marks: &mut [u8],
) -> usize
    requires cores_fit { CoresFit (length acodes.old) (length bcodes.old) amoves.old bmoves.old marks.old
        × Standing acodes.old × Standing bcodes.old × (acount ≤ 8) × (bcount ≤ 8) × (ainitial < 8) × (binitial < 8) }
    requires by_index { (u : ℕ) → Memᴰ u bmoves.old → row_of_lem u < length bcodes.old }
    ensures cores_sorted { CoresSorted acodes.old amoves.old acount bcodes.old bmoves.old bcount
        (starts_in acodes.old bcodes.old (λ c. bit c ainitial) (λ c. not (bit c binitial))) marks.new result }
    ensures acodes_after { (acodes.new ≡ plain acodes.old) × (amoves.new ≡ untagged amoves.old) }
    ensures bcodes_after { (bcodes.new ≡ plain bcodes.old) × (bmoves.new ≡ untagged bmoves.old) }
{
    let start = mark_pairs(
        acodes, amoves, acount, ainitial, bcodes, bmoves, bcount, binitial, marks,
    );
    untag(acodes, amoves);
    untag(bcodes, bmoves);
    start
}

// Sorts out the pairs of a number of A's table and one of the table of the words that B rejects: a start pair, and a mark for each pair, 0
// where it is out; or the number of pairs where no start pair is in. The tables are as they were in the end.
pub fn mark_files(
    a: &[u8],
    l: Layout,
    acodes: &mut [u64],
    amoves: &mut [u64],
    b: &[u8],
    m: Layout,
    bcodes: &mut [u64],
    bmoves: &mut [u64],
    marks: &mut [u8],
) -> usize
    requires { FileLists a.now l holds_initial acodes.old amoves.old × FileLists b.now m lacks_initial bcodes.old bmoves.old
        × (length marks.old ≡ length acodes.old * length bcodes.old) }
    ensures sorted { Sorted acodes.old amoves.old (λ c. bit c l.head.initial)
        bcodes.old bmoves.old (λ c. not (bit c m.head.initial)) marks.new result }
    ensures acodes_unchanged { (acodes.new ≡ acodes.old) × (amoves.new ≡ amoves.old) }
    ensures bcodes_unchanged { (bcodes.new ≡ bcodes.old) × (bmoves.new ≡ bmoves.old) }
{
    if marks.len() == 0 {
        return 0;
    }
    let acount = tag_file(a, l, acodes, amoves, marks);
    let bcount = tag_file(b, m, bcodes, bmoves, marks);
    let ainitial = l.head.initial as u32;
    let binitial = m.head.initial as u32;
    mark_tagged(
        acodes, amoves, acount, ainitial, bcodes, bmoves, bcount, binitial, marks,
    )
}
