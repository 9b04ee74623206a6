// Texts at a place of a lent slice, of which listings and texts for other tools are made: bytes, texts and numbers in decimal digits. Each
// function answers the place after what it wrote.

#![tactic(auto)]

pub mod decimals;

ghost use Rattle.std.specs.Prelude.{◌≡◌, ◌∷◌, [], ◌+◌, ◌≤◌, ◌<◌, length};
ghost use Rattle.slice_text.specs.Decimal.{digit, decimal, word};
ghost use Rattle.slice_text.specs.Put.{Put};

// One byte.
pub fn put_byte(out: &mut [u8], at: usize, byte: u8) -> usize
    requires { at < length out.old }
    ensures { Put out.old at (byte ∷ []) out.new result }
{
    out[at] = byte;
    at + 1
}

// A text.
pub fn put(out: &mut [u8], at: usize, text: &[u8]) -> usize
    requires { at + length text.now ≤ length out.old }
    ensures { Put out.old at text.now out.new result }
{
    // Byte by byte: by `copy_from_slice` the archive for C would need `memmove`.
    for (i, byte) in text.iter().enumerate() {
        out[at + i] = *byte;
    }
    at + text.len()
}

// A number below 10 as a digit.
fn digit_of(x: u64) -> u8
    requires { x < 10 }
    ensures { result ≡ digit x }
{
    48 + x as u8
}

// The decimal digits of x.
pub fn put_decimal(out: &mut [u8], at: usize, x: u64) -> usize
    requires { at + length (decimal x) ≤ length out.old }
    ensures { Put out.old at (decimal x) out.new result }
{
    if x < 10 {
        return put_byte(out, at, digit_of(x));
    }
    let end = put_decimal(out, at, x / 10);
    put_byte(out, end, digit_of(x % 10))
}

// A blank and the decimal digits of x.
pub fn put_word(out: &mut [u8], at: usize, x: u64) -> usize
    requires { at + length (word x) ≤ length out.old }
    ensures { Put out.old at (word x) out.new result }
{
    let end = put_byte(out, at, b' ');
    put_decimal(out, end, x)
}
