// The lines of a table's text and its parts, read from a slice; flags and transitions are stored as far as there is room for them. Nothing is
// answered where the text does not go on so: in the contracts, place 0.

#![tactic(auto)]

pub mod lines;

ghost use Rattle.std.specs.Prelude.{◌+◌, ◌<◌, ◌≤◌, ◌≡◌, cond, ltb, length, set, MatchOption};
ghost use Rattle.hoa_spec.specs.Lines.{state_line};
ghost use Rattle.hoa_laws.specs.Took.{Ended, TookOne};
ghost use Rattle.hoa_laws.specs.Parts.{Started, TookEdges, Onward, TookBlocks};

use crate::lines::{Number, take_edge, take_start, take_state};

// One more than the highest number with a start line, 0 if there is none, and the place after the start lines.
#[derive(Clone, Copy)]
pub struct Starts {
    pub last: usize,
    pub end: usize,
}

// How many transitions were read, and the place after their lines.
#[derive(Clone, Copy)]
pub struct Edges {
    pub count: usize,
    pub end: usize,
}

// How many macrostates are accepting, how many transitions there are, and the place after their lines.
#[derive(Clone, Copy)]
pub struct Blocks {
    pub accepting: usize,
    pub count: usize,
    pub end: usize,
}

// Stores a flag, if there is room.
fn store_flag(flags: &mut [u8], i: usize, x: u8)
    ensures { flags.new ≡ set flags.old i x }
{
    if flags.len() <= i {
        return;
    }
    flags[i] = x;
}

// Stores a transition, if there is room.
fn store_move(transitions: &mut [u64], i: usize, t: u64)
    ensures { transitions.new ≡ set transitions.old i t }
{
    if transitions.len() <= i {
        return;
    }
    transitions[i] = t;
}

// The flags of number i, where those below `accepting` are accepting; start is 1 for an initial one.
fn flag_of(accepting: usize, i: usize, start: u8) -> u8
    requires { start ≤ 1 }
    ensures { result ≡ cond (ltb i accepting) (2 + start) 0 }
{
    if accepting <= i {
        return 0;
    }
    2 + start
}

// The start lines of n numbers.
pub fn take_starts(text: &[u8], p: usize, n: usize, accepting: usize, flags: &mut [u8]) -> Starts
    requires { Ended text.now × (p ≤ length text.now) × (n ≤ 65536) }
    ensures { Started text.now p n accepting flags.old result.last result.end flags.new }
{
    let mut last = 0;
    let mut end = p;
    for i in 0..n {
        match take_start(text, end, i) {
            None => store_flag(flags, i, flag_of(accepting, i, 0)),
            Some(r) => {
                store_flag(flags, i, flag_of(accepting, i, 1));
                end = r;
                last = i + 1;
            }
        }
    }
    Starts { last, end }
}

// The edge lines of number i, of n; their transitions are stored from place m on.
fn take_edges(
    text: &[u8],
    p: usize,
    b: usize,
    n: usize,
    i: usize,
    transitions: &mut [u64],
    m: usize,
) -> Option<Edges>
    requires { Ended text.now × (0 < p) × (p ≤ length text.now) × (m ≤ p) × (b ≤ 4) × (n ≤ 65536) × (i < n) }
    ensures { MatchOption result (TookEdges text.now p b n i m transitions.old 0 0 transitions.new)
        (λ e. (0 < e.end) × TookEdges text.now p b n i m transitions.old e.count e.end transitions.new) }
{
    let mut count = m;
    let mut low = 0;
    let mut end = p;
    // A while: the place jumps to the end of the line that was read.
    while end < text.len() {
        if text[end] != b'[' {
            return Some(Edges { count, end });
        }
        let e = take_edge(text, end, b, n, i)?;
        let t = e.value;
        if t < low {
            return None;
        }
        store_move(transitions, count, t as u64);
        count += 1;
        low = t + 1;
        end = e.end;
    }
    Some(Edges { count, end })
}

// The state line of number i: how many numbers are accepting up to it, if `accepting` are before it; accepting ones come first.
fn take_marked(text: &[u8], p: usize, i: usize, accepting: usize) -> Option<Number>
    requires { Ended text.now × (p ≤ length text.now) × (i ≤ 65536) × (accepting ≤ i) }
    ensures { MatchOption result (TookOne text.now p (Onward accepting i) (λ a. state_line i (ltb i a)) 0 0)
        (λ n. (0 < n.end) × TookOne text.now p (Onward accepting i) (λ a. state_line i (ltb i a)) n.value n.end) }
{
    let s = take_state(text, p, i)?;
    if s.value == 0 {
        return Some(Number {
            value: accepting,
            end: s.end,
        });
    }
    if accepting < i {
        return None;
    }
    Some(Number {
        value: i + 1,
        end: s.end,
    })
}

// The lines of n macrostates over b propositions.
pub fn take_blocks(
    text: &[u8],
    p: usize,
    b: usize,
    n: usize,
    transitions: &mut [u64],
) -> Option<Blocks>
    requires { Ended text.now × (0 < p) × (p ≤ length text.now) × (b ≤ 4) × (n ≤ 65536) }
    ensures { MatchOption result (TookBlocks text.now p b n transitions.old 0 0 0 transitions.new)
        (λ r. (0 < r.end) × TookBlocks text.now p b n transitions.old r.accepting r.count r.end transitions.new) }
{
    let mut accepting = 0;
    let mut count = 0;
    let mut end = p;
    for i in 0..n {
        let s = take_marked(text, end, i, accepting)?;
        let e = take_edges(text, s.end, b, n, i, transitions, count)?;
        accepting = s.value;
        count = e.count;
        end = e.end;
    }
    Some(Blocks {
        accepting,
        count,
        end,
    })
}
