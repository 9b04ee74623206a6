// Numbers in decimal digits at a place of a slice, written two digits at a time: for texts of many numbers.
// Each function answers the place after what it wrote.
ghost use Rattle.std.specs.Prelude.{◌∷◌, [], ◌+◌, ◌/◌, ◌%◌, ◌≤◌, ◌<◌, length};
ghost use Rattle.slice_text.specs.Decimal.{digit, decimal, word};
ghost use Rattle.slice_text.specs.Put.{Put};

use crate::put_byte;

// The last two digits of x, zeros too.
fn put_pair(out: &mut [u8], at: usize, x: u64) -> usize
    requires { at + 2 ≤ length out.old }
    ensures { Put out.old at (digit (x / 10 % 10) ∷ digit (x % 10) ∷ []) out.new result }
{
    let end = put_byte(out, at, 48 + (x / 10 % 10) as u8);
    put_byte(out, end, 48 + (x % 10) as u8)
}

// A number below 100.
fn put_two(out: &mut [u8], at: usize, x: u64) -> usize
    requires { (x < 100) × (at + length (decimal x) ≤ length out.old) }
    ensures { Put out.old at (decimal x) out.new result }
{
    if x < 10 {
        return put_byte(out, at, 48 + x as u8);
    }
    put_pair(out, at, x)
}

// A number below 10,000.
fn put_four(out: &mut [u8], at: usize, x: u64) -> usize
    requires { (x < 10000) × (at + length (decimal x) ≤ length out.old) }
    ensures { Put out.old at (decimal x) out.new result }
{
    if x < 100 {
        return put_two(out, at, x);
    }
    let end = put_two(out, at, x / 100);
    put_pair(out, end, x)
}

// A number below 1,000,000.
fn put_six(out: &mut [u8], at: usize, x: u64) -> usize
    requires { (x < 1000000) × (at + length (decimal x) ≤ length out.old) }
    ensures { Put out.old at (decimal x) out.new result }
{
    if x < 10000 {
        return put_four(out, at, x);
    }
    let end = put_two(out, at, x / 10000);
    let last = put_pair(out, end, x / 100);
    put_pair(out, last, x)
}

// A blank and the decimal digits of x.
pub fn put_number(out: &mut [u8], at: usize, x: u64) -> usize
    requires { at + length (word x) ≤ length out.old }
    ensures { Put out.old at (word x) out.new result }
{
    if 1000000 <= x {
        return crate::put_word(out, at, x);
    }
    let end = put_byte(out, at, b' ');
    put_six(out, end, x)
}
