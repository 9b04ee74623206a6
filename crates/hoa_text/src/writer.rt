// The text of a table, put together from its lines in the order of the format. Each function answers the place after what it wrote.
ghost use Rattle.std.specs.Prelude.{◌+◌, ◌-◌, ◌<◌, ◌≤◌, ◌++◌, length, take, drop};
ghost use Rattle.sets.specs.Lists.{Ascending};
ghost use Rattle.slice_text.specs.Put.{Put};
ghost use Rattle.listing_lines_spec.specs.Lines.{initial_at, lines};
ghost use Rattle.table_lent.specs.Lent.{words_in};
ghost use Rattle.hoa_spec.specs.Lines.{acceptance_lines, state_line};
ghost use Rattle.hoa_spec.specs.Text.{flags_of, start_of, edge_of, block_of, automaton_text};

use crate::lines::{put_ap, put_edge, put_start, put_state, put_states};
use crate::table::{number_at, stretch_end};
use codes::{is_accepting, is_initial, letter_of, target_of};
use slice_text::put;

// The start lines of codes, under a rule with this initial state.
fn put_starts(out: &mut [u8], at: usize, codes: &[u8], initial: u32) -> usize
    requires { (initial < 8) × (at + length (lines start_of 0 (flags_of (initial_at initial) (words_in codes.now))) ≤ length out.old) }
    ensures { Put out.old at (lines start_of 0 (flags_of (initial_at initial) (words_in codes.now))) out.new result }
{
    let n = codes.len() / 8;
    let mut end = at;
    for i in 0..n {
        let begins = is_initial(number_at(codes, i), initial);
        end = put_start(out, end, i, begins);
    }
    end
}

// The edge lines of the transitions from place j up to place k.
fn put_edges(out: &mut [u8], at: usize, b: usize, moves: &[u8], j: usize, k: usize) -> usize
    requires { (b ≤ 4) × (j ≤ k) × (k ≤ length (words_in moves.now))
        × (at + length (lines (edge_of b) 0 (take (k - j) (drop j (words_in moves.now)))) ≤ length out.old) }
    ensures { Put out.old at (lines (edge_of b) 0 (take (k - j) (drop j (words_in moves.now))))
        out.new result }
{
    let mut end = at;
    for i in j..k {
        let t = number_at(moves, i);
        let letter = letter_of(t);
        let target = target_of(t);
        end = put_edge(out, end, b, letter, target);
    }
    end
}

// The lines of macrostate i, whose transitions stand from place j up to place k.
fn put_block(
    out: &mut [u8],
    at: usize,
    b: usize,
    i: usize,
    accepting: bool,
    moves: &[u8],
    j: usize,
    k: usize,
) -> usize
    requires { (b ≤ 4) × (j ≤ k) × (k ≤ length (words_in moves.now))
        × (at + length (state_line i accepting ++ lines (edge_of b) 0 (take (k - j) (drop j (words_in moves.now)))) ≤ length out.old) }
    ensures { Put out.old at
        (state_line i accepting ++ lines (edge_of b) 0 (take (k - j) (drop j (words_in moves.now)))) out.new result }
{
    let end = put_state(out, at, i, accepting);
    put_edges(out, end, b, moves, j, k)
}

// The lines of all macrostates.
fn put_blocks(
    out: &mut [u8],
    at: usize,
    b: usize,
    codes: &[u8],
    moves: &[u8],
    initial: u32,
) -> usize
    requires { (b ≤ 4) × Ascending (words_in moves.now)
        × (at + length (lines (block_of b (words_in moves.now)) 0 (flags_of (initial_at initial) (words_in codes.now)))
        ≤ length out.old) }
    ensures { Put out.old at
        (lines (block_of b (words_in moves.now)) 0 (flags_of (initial_at initial) (words_in codes.now)))
        out.new result }
{
    let n = codes.len() / 8;
    let mut end = at;
    let mut j = 0;
    for i in 0..n {
        let accepts = is_accepting(number_at(codes, i));
        let k = stretch_end(moves, i, j);
        end = put_block(out, end, b, i, accepts, moves, j, k);
        j = k;
    }
    end
}

// The lines between the propositions and the macrostates.
fn put_acceptance(out: &mut [u8], at: usize) -> usize
    requires { at + length acceptance_lines ≤ length out.old }
    ensures { Put out.old at acceptance_lines out.new result }
{
    let a = put(out, at, b"acc-name: Buchi\nAcceptance: 1 Inf(0)\n");
    put(
        out,
        a,
        b"properties: trans-labels explicit-labels state-acc\n--BODY--\n",
    )
}

// The whole text, over b propositions.
pub fn put_text(out: &mut [u8], b: usize, initial: u32, codes: &[u8], moves: &[u8]) -> usize
    requires { (b ≤ 4) × (initial < 8) × Ascending (words_in moves.now)
        × (length (automaton_text b (flags_of (initial_at initial) (words_in codes.now)) (words_in moves.now)) ≤ length out.old) }
    ensures { Put out.old 0
        (automaton_text b (flags_of (initial_at initial) (words_in codes.now)) (words_in moves.now))
        out.new result }
{
    let c = put(out, 0, b"HOA: v1\n");
    let d = put_states(out, c, codes.len() / 8);
    let e = put_starts(out, d, codes, initial);
    let f = put_ap(out, e, b);
    let g = put_acceptance(out, f);
    let h = put_blocks(out, g, b, codes, moves, initial);
    put(out, h, b"--END--\n")
}
