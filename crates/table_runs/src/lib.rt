// The nodes of a table and a word from which an accepting run goes on, which decide what the judge on a table answers: number m at place p
// is marked in byte p * n + m, n being the number of codes.

#![tactic(auto)]

ghost use Rattle.std.specs.Prelude.{◌≡◌, ◌↔◌, ◌⊎◌, ℕ, ◌+◌, ◌*◌, ◌<◌, ◌≤◌, length, get_or};
ghost use mathlib.Core.List.{[], Memᴰ};
ghost use Rattle.theory.specs.Run.{source_of, target_of};
ghost use Rattle.table_lent.specs.Lent.{in_both};
ghost use Rattle.table_fixpoints_spec.specs.Product.{NodeEdge, Fits};
ghost use Rattle.table_runs.specs.Tracks.{TrackFrom, Tracked, WordReady, flag_of_lem, flagged_at, Flagged, raised, Raised, Begun, Thinned};
ghost use Rattle.table_runs.specs.Tracks.{Found, entered_by, entered_all, Entered};

use codes::{is_accepting, letter_of, source_of, target_of};
use slice_search::bytes::fill_with;
use table_fixpoints::fixpoints::{prune, solve_round};
use table_lent::{count, element};

// ---- the cycle

// The mark of a node that is in, by its code: 2 if it is accepting, else 1.
fn flag_of(code: u64) -> u8
    ensures { result ≡ flag_of_lem code }
{
    if is_accepting(code) {
        return 2;
    }
    1
}

// Gives node x the mark of its code, if it is in.
fn flag_node(codes: &[u64], codebytes: &[u8], marks: &mut [u8], x: usize)
    requires { (x < length marks.old) × (0 < length (in_both codes.now codebytes.now).numbers) }
    ensures { marks.new ≡ flagged_at (in_both codes.now codebytes.now).numbers x marks.old }
{
    if marks[x] == 0 {
        return;
    }
    let n = count(codes, codebytes);
    marks[x] = flag_of(element(codes, codebytes, x % n));
}

// Gives every node that is in the mark of its code.
fn flag(codes: &[u64], codebytes: &[u8], marks: &mut [u8])
    requires { (d : ℕ) × (length marks.old ≡ d * length (in_both codes.now codebytes.now).numbers) }
    ensures { Flagged (in_both codes.now codebytes.now).numbers marks.old marks.new }
{
    for x in 0..marks.len() {
        flag_node(codes, codebytes, marks, x);
    }
}

// The mark 2 of a node that is in.
fn raised_mark(v: u8) -> u8
    ensures { result ≡ raised v }
{
    if v == 0 {
        return 0;
    }
    2
}

// Gives every node that is in the mark 2.
fn raise(marks: &mut [u8])
    ensures { Raised marks.old marks.new }
{
    for mark in marks.iter_mut() {
        *mark = raised_mark(*mark);
    }
}

// Takes out nodes without an endless walk before the first round, and before each from the fourth on: a chain of accepting nodes falls at
// once, which would fall node by node. It takes as long as a round, and tables that are built need few rounds.
fn thin(
    round: usize,
    codes: &[u64],
    codebytes: &[u8],
    moves: &[u64],
    movebytes: &[u8],
    cycle: &[u8],
    marks: &mut [u8],
)
    requires { Fits (length (in_both codes.now codebytes.now).numbers) cycle.now (in_both moves.now movebytes.now).numbers
        marks.old × Begun round (in_both codes.now codebytes.now).numbers marks.old }
    ensures { Thinned (NodeEdge (length (in_both codes.now codebytes.now).numbers) cycle.now
        (in_both moves.now movebytes.now).numbers) (in_both codes.now codebytes.now).numbers
        marks.old
        marks.new }
{
    if round == 1 {
        return;
    }
    if round == 2 {
        return;
    }
    let n = count(codes, codebytes);
    raise(marks);
    prune(moves, movebytes, cycle, n, marks);
    flag(codes, codebytes, marks);
}

// The number of the round that follows; 3 stands for every later one.
fn next_round(round: usize) -> usize
    ensures { 0 < result }
{
    if round < 3 {
        return round + 1;
    }
    3
}

// Takes out nodes until from each that is left a walk leads to an accepting one that is left. Thinning and the round are called at one
// place each: so the compiler sees how the table is lent, and does not ask for each transition.
fn solve(
    codes: &[u64],
    codebytes: &[u8],
    moves: &[u64],
    movebytes: &[u8],
    cycle: &[u8],
    marks: &mut [u8],
)
    requires { Fits (length (in_both codes.now codebytes.now).numbers) cycle.now (in_both moves.now movebytes.now).numbers
        marks.old × ((x : ℕ) → (get_or marks.old x 0 ≡ 0) ⊎ (get_or marks.old x 0 ≡ 2)) }
    ensures { Found (NodeEdge (length (in_both codes.now codebytes.now).numbers) cycle.now
        (in_both moves.now movebytes.now).numbers) (in_both codes.now codebytes.now).numbers
        marks.old
        marks.new }
{
    let n = count(codes, codebytes);
    let mut round = 0;
    loop {
        thin(round, codes, codebytes, moves, movebytes, cycle, marks);
        if !solve_round(moves, movebytes, cycle, n, marks) {
            return;
        }
        round = next_round(round);
    }
}

// Marks the nodes of a cycle: those at its first place from which an accepting run goes on are in, and no others there.
fn fill_cycle(
    codes: &[u64],
    codebytes: &[u8],
    moves: &[u64],
    movebytes: &[u8],
    cycle: &[u8],
    marks: &mut [u8],
)
    requires { Fits (length (in_both codes.now codebytes.now).numbers) cycle.now (in_both moves.now movebytes.now).numbers
        marks.old }
    ensures { (m : ℕ)
        → m < length (in_both codes.now codebytes.now).numbers
        → (0 < get_or marks.new m 0) ↔ TrackFrom (in_both codes.now codebytes.now).numbers
        (in_both moves.now movebytes.now).numbers [] cycle.now m }
{
    fill_with(marks, 2);
    solve(codes, codebytes, moves, movebytes, cycle, marks);
}

// ---- the lead-in

// Marks the source of a transition over the letter whose target is marked.
fn enter(t: u64, letter: usize, marks: &mut [u8], here: usize, there: usize)
    requires { (here + source_of t < length marks.old) × (there + target_of t < length marks.old) }
    ensures { marks.new ≡ entered_by letter here there t marks.old }
{
    if letter_of(t) != letter {
        return;
    }
    if marks[there + target_of(t)] == 0 {
        return;
    }
    marks[here + source_of(t)] = 1;
}

// Marks the source of every transition over the letter whose target is marked.
fn enter_all(
    moves: &[u64],
    movebytes: &[u8],
    letter: usize,
    marks: &mut [u8],
    here: usize,
    there: usize,
)
    requires { (t : ℕ) → Memᴰ t (in_both moves.now movebytes.now).numbers → (here + source_of t < length marks.old)
        × (there + target_of t < length marks.old) }
    ensures { marks.new
        ≡ entered_all letter here there (in_both moves.now movebytes.now).numbers marks.old }
{
    for i in 0..count(moves, movebytes) {
        enter(element(moves, movebytes, i), letter, marks, here, there);
    }
}

// Marks the nodes of a lead-in, n a place, from its last place to its first.
fn enter_lead(moves: &[u64], movebytes: &[u8], lead: &[u8], n: usize, marks: &mut [u8])
    requires { (length lead.now * n + n ≤ length marks.old)
        × ((t : ℕ) → Memᴰ t (in_both moves.now movebytes.now).numbers → (source_of t < n) × (target_of t < n))
        × ((x : ℕ) → x < length lead.now * n → get_or marks.old x 0 ≡ 0) }
    ensures { Entered n lead.now (in_both moves.now movebytes.now).numbers marks.old
        marks.new }
{
    for p in (0..lead.len()).rev() {
        let here = p * n;
        enter_all(moves, movebytes, lead[p] as usize, marks, here, here + n);
    }
}

// Marks the nodes of a word: those of its lead-in, and of the cycle's first place, from which an accepting run goes on, and no others
// there.
pub fn fill(
    codes: &[u64],
    codebytes: &[u8],
    moves: &[u64],
    movebytes: &[u8],
    lead: &[u8],
    cycle: &[u8],
    marks: &mut [u8],
)
    requires { WordReady (in_both codes.now codebytes.now).numbers (in_both moves.now movebytes.now).numbers lead.now cycle.now
        marks.old }
    ensures { Tracked (in_both codes.now codebytes.now).numbers
        (in_both moves.now movebytes.now).numbers lead.now cycle.now
        marks.new }
{
    let n = count(codes, codebytes);
    let at = lead.len() * n;
    fill_with(marks, 0);
    fill_cycle(codes, codebytes, moves, movebytes, cycle, &mut marks[at..]);
    enter_lead(moves, movebytes, lead, n, marks);
}
