// How long the text of a table is, so that a slice that is too short is refused before a byte is written. Lines that are few are written
// into a small room, edge lines are counted.
ghost use Rattle.std.specs.Prelude.{◌≡◌, cond, ℕ, ◌+◌, ◌<◌, ◌≤◌, length};
ghost use mathlib.Core.List.{[], Memᴰ};
ghost use Rattle.theory.specs.Run.{source_of};
ghost use Rattle.listing_lines_spec.specs.Lines.{initial_at, lines};
ghost use Rattle.table_lent.specs.Lent.{words_in};
ghost use Rattle.slice_text.specs.Decimal.{word};
ghost use Rattle.hoa_spec.specs.Lines.{start_line, state_line, label, edge_line};
ghost use Rattle.hoa_spec.specs.Text.{flags_of, start_of, state_of, edge_of, automaton_text};

use crate::lines::{put_ap, put_start, put_state, put_states};
use crate::table::number_at;
use codes::{is_accepting, is_initial, letter_of, target_of};

// A start line, or nothing.
fn start_length(number: usize, initial: bool) -> usize
    requires { number ≤ 65536 }
    ensures { result ≡ length (cond initial (start_line number) []) }
{
    let mut line = [0u8; 32];
    put_start(&mut line, 0, number, initial)
}

// A state line.
fn state_length(number: usize, accepting: bool) -> usize
    requires { number ≤ 65536 }
    ensures { result ≡ length (state_line number accepting) }
{
    let mut line = [0u8; 32];
    put_state(&mut line, 0, number, accepting)
}

// A number and the blank before it.
fn word_length(x: usize) -> usize
    requires { x ≤ 65536 }
    ensures { result ≡ length (word x) }
{
    if x < 10 {
        return 2;
    }
    if x < 100 {
        return 3;
    }
    if x < 1000 {
        return 4;
    }
    if x < 10000 {
        return 5;
    }
    6
}

// A label.
fn label_length(b: usize, letter: usize) -> usize
    requires { b ≤ 4 }
    ensures { result ≡ length (label b letter) }
{
    if b == 0 {
        return 1;
    }
    let mut total = 2 - (letter & 1);
    for i in 1..b {
        total += 3 - ((letter >> i) & 1);
    }
    total
}

// An edge line.
fn edge_length(b: usize, letter: usize, target: usize) -> usize
    requires { (b ≤ 4) × (target ≤ 65536) }
    ensures { result ≡ length (edge_line b letter target) }
{
    label_length(b, letter) + word_length(target) + 3
}

// All start lines and state lines.
fn macrostates_length(codes: &[u8], initial: u32) -> usize
    requires { (initial < 8) × (length (words_in codes.now) ≤ 65536) }
    ensures { result ≡ length (lines start_of 0 (flags_of (initial_at initial) (words_in codes.now)))
        + length (lines state_of 0 (flags_of (initial_at initial) (words_in codes.now))) }
{
    let n = codes.len() / 8;
    let mut starts = 0;
    let mut states = 0;
    for i in 0..n {
        let code = number_at(codes, i);
        let begins = is_initial(code, initial);
        let accepts = is_accepting(code);
        starts += start_length(i, begins);
        states += state_length(i, accepts);
    }
    starts + states
}

// All edge lines.
fn edges_length(b: usize, moves: &[u8]) -> usize
    requires { (b ≤ 4) × (length (words_in moves.now) ≤ 1099511627776) }
    ensures { result ≡ length (lines (edge_of b) 0 (words_in moves.now)) }
{
    let m = moves.len() / 8;
    let mut total = 0;
    for i in 0..m {
        let t = number_at(moves, i);
        let letter = letter_of(t);
        let target = target_of(t);
        total += edge_length(b, letter, target);
    }
    total
}

// The whole text, over b propositions.
pub fn text_length(b: usize, initial: u32, codes: &[u8], moves: &[u8]) -> usize
    requires { (b ≤ 4) × (initial < 8) × (length (words_in codes.now) ≤ 65536) × (length (words_in moves.now) ≤ 1099511627776)
        × ((t : ℕ) → Memᴰ t (words_in moves.now) → source_of t < length (words_in codes.now)) }
    ensures { result ≡ length (automaton_text b (flags_of (initial_at initial) (words_in codes.now)) (words_in moves.now)) }
{
    let mut line = [0u8; 32];
    let states = put_states(&mut line, 0, codes.len() / 8);
    let propositions = put_ap(&mut line, 0, b);
    let macrostates = macrostates_length(codes, initial);
    let edges = edges_length(b, moves);
    states + propositions + macrostates + edges + 113
}
