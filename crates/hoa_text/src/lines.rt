// The lines of a table's text, written into a slice: the text is put together from them. Each function answers the place after what it
// wrote, where the next line goes.
ghost use Rattle.std.specs.Prelude.{◌≡◌, cond, [], ◌+◌, ◌≤◌, ◌<◌, length};
ghost use Rattle.slice_text.specs.Put.{Put};
ghost use Rattle.hoa_spec.specs.Lines.{states_line, start_line, propositions, ap_line, state_line, literal, label, edge_line};

// The fewest propositions that tell s letters apart.
pub fn propositions_of(s: usize) -> usize
    requires { s ≤ 16 }
    ensures { (result ≡ propositions s) × (result ≤ 4) }
{
    if s <= 1 {
        return 0;
    }
    if s <= 2 {
        return 1;
    }
    if s <= 4 {
        return 2;
    }
    if s <= 8 {
        return 3;
    }
    4
}

// The line with the number of macrostates.
pub fn put_states(out: &mut [u8], at: usize, states: usize) -> usize
    requires { at + length (states_line states) ≤ length out.old }
    ensures { Put out.old at (states_line states) out.new result }
{
    let a = slice_text::put(out, at, b"States:");
    let b = slice_text::decimals::put_number(out, a, states as u64);
    slice_text::put_byte(out, b, b'\n')
}

// The start line of a macrostate, where it is initial.
pub fn put_start(out: &mut [u8], at: usize, number: usize, initial: bool) -> usize
    requires { at + length (cond initial (start_line number) []) ≤ length out.old }
    ensures { Put out.old at (cond initial (start_line number) []) out.new result }
{
    if !initial {
        return at;
    }
    let a = slice_text::put(out, at, b"Start:");
    let b = slice_text::decimals::put_number(out, a, number as u64);
    slice_text::put_byte(out, b, b'\n')
}

// The line of b propositions.
pub fn put_ap(out: &mut [u8], at: usize, b: usize) -> usize
    requires { (b ≤ 4) × (at + length (ap_line b) ≤ length out.old) }
    ensures { Put out.old at (ap_line b) out.new result }
{
    if b == 0 {
        return slice_text::put(out, at, b"AP: 0\n");
    }
    if b == 1 {
        return slice_text::put(out, at, b"AP: 1 \"e0\"\n");
    }
    if b == 2 {
        return slice_text::put(out, at, b"AP: 2 \"e0\" \"e1\"\n");
    }
    if b == 3 {
        return slice_text::put(out, at, b"AP: 3 \"e0\" \"e1\" \"e2\"\n");
    }
    slice_text::put(out, at, b"AP: 4 \"e0\" \"e1\" \"e2\" \"e3\"\n")
}

// The state line of a macrostate.
pub fn put_state(out: &mut [u8], at: usize, number: usize, accepting: bool) -> usize
    requires { at + length (state_line number accepting) ≤ length out.old }
    ensures { Put out.old at (state_line number accepting) out.new result }
{
    let a = slice_text::put(out, at, b"State:");
    let b = slice_text::decimals::put_number(out, a, number as u64);
    if accepting {
        return slice_text::put(out, b, b" {0}\n");
    }
    slice_text::put_byte(out, b, b'\n')
}

// Proposition i, or `!` and it, by the bit of the letter.
fn put_literal(out: &mut [u8], at: usize, letter: usize, i: usize) -> usize
    requires { (i < 4) × (at + length (literal letter i) ≤ length out.old) }
    ensures { Put out.old at (literal letter i) out.new result }
{
    let name = b'0' + i as u8;
    if (letter >> i) & 1 == 1 {
        return slice_text::put_byte(out, at, name);
    }
    let a = slice_text::put_byte(out, at, b'!');
    slice_text::put_byte(out, a, name)
}

// The label of a letter over b propositions.
fn put_label(out: &mut [u8], at: usize, b: usize, letter: usize) -> usize
    requires { (b ≤ 4) × (at + length (label b letter) ≤ length out.old) }
    ensures { Put out.old at (label b letter) out.new result }
{
    if b == 0 {
        return slice_text::put_byte(out, at, b't');
    }
    let mut end = put_literal(out, at, letter, 0);
    for i in 1..b {
        let a = slice_text::put_byte(out, end, b'&');
        end = put_literal(out, a, letter, i);
    }
    end
}

// The edge line of a transition.
pub fn put_edge(out: &mut [u8], at: usize, b: usize, letter: usize, target: usize) -> usize
    requires { (b ≤ 4) × (at + length (edge_line b letter target) ≤ length out.old) }
    ensures { Put out.old at (edge_line b letter target) out.new result }
{
    let a = slice_text::put_byte(out, at, b'[');
    let c = put_label(out, a, b, letter);
    let d = slice_text::put_byte(out, c, b']');
    let e = slice_text::decimals::put_number(out, d, target as u64);
    slice_text::put_byte(out, e, b'\n')
}
