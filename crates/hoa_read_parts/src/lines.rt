// The lines of a table's text, read from a slice. Each function answers the place after what it read, or nothing if the text does not go on
// so: in the contracts, place 0.
// The text ends in a newline, so after any other byte there is one more, and most places need no test that the text goes on.
ghost use Rattle.std.specs.Prelude.{◌≤◌, ◌<◌, ◌^◌, ◌≡◌, ◌∷◌, [], ◌++◌, ◌⊎◌, length, eqb, MatchOption};
ghost use Rattle.slice_text.specs.Decimal.{word};
ghost use Rattle.listing_lines_spec.specs.Lines.{newline};
ghost use Rattle.hoa_spec.specs.Lines.{start_line, ap_line, state_line, literal, label};
ghost use Rattle.hoa_spec.specs.Text.{edge_of};
ghost use Rattle.hoa_laws.specs.Took.{Ended, Took, TookOne, TookDigits, TookWord, Leaves};

// A number, and the place after it.
#[derive(Clone, Copy)]
pub struct Number {
    pub value: usize,
    pub end: usize,
}

// The bytes s.
pub fn take(text: &[u8], p: usize, s: &[u8]) -> Option<usize>
    requires { (p ≤ length text.now) × (0 < length s.now) }
    ensures { MatchOption result (Took text.now p s.now 0) (λ r. (0 < r) × Took text.now p s.now r) }
{
    if !text[p..].starts_with(s) {
        return None;
    }
    Some(p + s.len())
}

// One byte.
fn take_byte(text: &[u8], p: usize, byte: u8) -> Option<usize>
    requires { Ended text.now × (p < length text.now) }
    ensures { MatchOption result (Took text.now p (byte ∷ []) 0)
        (λ r. (0 < r) × Took text.now p (byte ∷ []) r × ((byte ≡ 10 → ⊥) → r < length text.now)) }
{
    if text[p] != byte {
        return None;
    }
    Some(p + 1)
}

// The digits of a number of at most 65536, after those of v.
fn take_digits(text: &[u8], p: usize, v: usize) -> Option<Number>
    requires { Ended text.now × (0 < p) × (p < length text.now) × (v ≤ 65536) }
    ensures { MatchOption result (TookDigits text.now p v 0 0) (λ n. (0 < n.end) × TookDigits text.now p v n.value n.end) }
{
    let mut x = v;
    for q in p..text.len() {
        let c = text[q];
        if c < 48 {
            return Some(Number { value: x, end: q });
        }
        if 57 < c {
            return None;
        }
        if x == 0 {
            return None;
        }
        x = x * 10 + (c - 48) as usize;
        if 65536 < x {
            return None;
        }
    }
    None
}

// A blank and a number of at most 65536, with no leading zero, before a byte that is less than a digit.
fn take_word(text: &[u8], p: usize) -> Option<Number>
    requires { Ended text.now × (p < length text.now) }
    ensures { MatchOption result (TookWord text.now p 0 0) (λ n. (0 < n.end) × TookWord text.now p n.value n.end) }
{
    let a = take_byte(text, p, b' ')?;
    let c = text[a];
    if c < 48 {
        return None;
    }
    if 57 < c {
        return None;
    }
    take_digits(text, a + 1, (c - 48) as usize)
}

// The bytes s, a blank, a number and a newline.
pub fn take_numbered(text: &[u8], p: usize, s: &[u8]) -> Option<Number>
    requires { Ended text.now × (p ≤ length text.now) × (0 < length s.now) }
    ensures { MatchOption result (TookOne text.now p (λ x. x ≤ 65536) (λ x. s.now ++ (word x ++ newline)) 0 0)
        (λ n. (0 < n.end) × TookOne text.now p (λ x. x ≤ 65536) (λ x. s.now ++ (word x ++ newline)) n.value n.end) }
{
    let a = take(text, p, s)?;
    if text.len() <= a {
        return None;
    }
    let w = take_word(text, a)?;
    let e = take_byte(text, w.end, b'\n')?;
    Some(Number {
        value: w.value,
        end: e,
    })
}

// The start line of number i.
pub fn take_start(text: &[u8], p: usize, i: usize) -> Option<usize>
    requires { Ended text.now × (p ≤ length text.now) × (i ≤ 65536) }
    ensures { MatchOption result (Took text.now p (start_line i) 0) (λ r. (0 < r) × Took text.now p (start_line i) r) }
{
    let w = take_numbered(text, p, b"Start:")?;
    if w.value != i {
        return None;
    }
    Some(w.end)
}

// The line of the propositions: their number.
pub fn take_ap(text: &[u8], p: usize) -> Option<Number>
    requires { p ≤ length text.now }
    ensures { MatchOption result (TookOne text.now p (λ b. b ≤ 4) ap_line 0 0)
        (λ n. (0 < n.end) × TookOne text.now p (λ b. b ≤ 4) ap_line n.value n.end) }
{
    if let Some(a) = take(text, p, b"AP: 0\n") {
        return Some(Number { value: 0, end: a });
    }
    if let Some(b) = take(text, p, b"AP: 1 \"e0\"\n") {
        return Some(Number { value: 1, end: b });
    }
    if let Some(c) = take(text, p, b"AP: 2 \"e0\" \"e1\"\n") {
        return Some(Number { value: 2, end: c });
    }
    if let Some(d) = take(text, p, b"AP: 3 \"e0\" \"e1\" \"e2\"\n") {
        return Some(Number { value: 3, end: d });
    }
    let e = take(text, p, b"AP: 4 \"e0\" \"e1\" \"e2\" \"e3\"\n")?;
    Some(Number { value: 4, end: e })
}

// The state line of number i: 1 if it is accepting, else 0.
pub fn take_state(text: &[u8], p: usize, i: usize) -> Option<Number>
    requires { Ended text.now × (p ≤ length text.now) × (i ≤ 65536) }
    ensures { MatchOption result (TookOne text.now p (λ x. x ≤ 1) (λ x. state_line i (eqb x 1)) 0 0)
        (λ n. (0 < n.end) × TookOne text.now p (λ x. x ≤ 1) (λ x. state_line i (eqb x 1)) n.value n.end) }
{
    let a = take(text, p, b"State:")?;
    if text.len() <= a {
        return None;
    }
    let w = take_word(text, a)?;
    if w.value != i {
        return None;
    }
    if let Some(c) = take(text, w.end, b" {0}\n") {
        return Some(Number { value: 1, end: c });
    }
    let d = take_byte(text, w.end, b'\n')?;
    Some(Number { value: 0, end: d })
}

// Proposition i, or `!` and it: 2 to the power i, or 0.
fn take_literal(text: &[u8], p: usize, i: usize) -> Option<Number>
    requires { Ended text.now × (p < length text.now) × (i < 4) }
    ensures { MatchOption result (TookOne text.now p (λ x. (x ≡ 0) ⊎ (x ≡ 2 ^ i)) (λ x. literal x i) 0 0)
        (λ n. (0 < n.end) × TookOne text.now p (λ x. (x ≡ 0) ⊎ (x ≡ 2 ^ i)) (λ x. literal x i) n.value n.end × (n.end < length text.now)) }
{
    let name = b'0' + i as u8;
    if let Some(a) = take_byte(text, p, name) {
        return Some(Number {
            value: 1usize << i,
            end: a,
        });
    }
    let c = take_byte(text, p, b'!')?;
    let d = take_byte(text, c, name)?;
    Some(Number { value: 0, end: d })
}

// The label of a letter over b propositions: the letter.
fn take_label(text: &[u8], p: usize, b: usize) -> Option<Number>
    requires { Ended text.now × (p < length text.now) × (b ≤ 4) }
    ensures { MatchOption result (TookOne text.now p (λ x. x < 2 ^ b) (label b) 0 0)
        (λ n. (0 < n.end) × TookOne text.now p (λ x. x < 2 ^ b) (label b) n.value n.end × (n.end < length text.now)) }
{
    if b == 0 {
        let a = take_byte(text, p, b't')?;
        return Some(Number { value: 0, end: a });
    }
    let f = take_literal(text, p, 0)?;
    let mut letter = f.value;
    let mut end = f.end;
    for i in 1..b {
        let c = take_byte(text, end, b'&')?;
        let g = take_literal(text, c, i)?;
        letter += g.value;
        end = g.end;
    }
    Some(Number {
        value: letter,
        end: end,
    })
}

// The target of a transition: `]`, a blank, a number and a newline.
fn take_target(text: &[u8], p: usize) -> Option<Number>
    requires { Ended text.now × (p < length text.now) }
    ensures { MatchOption result (TookOne text.now p (λ x. x ≤ 65536) (λ x. (93 ∷ []) ++ (word x ++ newline)) 0 0)
        (λ n. (0 < n.end) × TookOne text.now p (λ x. x ≤ 65536) (λ x. (93 ∷ []) ++ (word x ++ newline)) n.value n.end) }
{
    let a = take_byte(text, p, b']')?;
    let w = take_word(text, a)?;
    let e = take_byte(text, w.end, b'\n')?;
    Some(Number {
        value: w.value,
        end: e,
    })
}

// The edge line of a transition from number i to one of n: the transition.
pub fn take_edge(text: &[u8], p: usize, b: usize, n: usize, i: usize) -> Option<Number>
    requires { Ended text.now × (p < length text.now) × (b ≤ 4) × (n ≤ 65536) × (i < n) }
    ensures { MatchOption result (TookOne text.now p (λ t. Leaves b n i t) (λ t. edge_of b 0 t) 0 0)
        (λ r. (0 < r.end) × TookOne text.now p (λ t. Leaves b n i t) (λ t. edge_of b 0 t) r.value r.end) }
{
    let a = take_byte(text, p, b'[')?;
    let l = take_label(text, a, b)?;
    let w = take_target(text, l.end)?;
    if n <= w.value {
        return None;
    }
    Some(Number {
        value: i * 16777216 + l.value * 65536 + w.value,
        end: w.end,
    })
}
