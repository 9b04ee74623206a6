// What the program `cases` reads and prints. A call is 256 bytes: the entry, five numbers, the places where its name and its five parts
// begin and where the last ends, then the name and the parts.
ghost use Rattle.std.specs.Prelude.{◌≡◌, ◌<◌, length};

use std::io;
use std::io::Stdout;

// ---- what is printed

pub fn say(to: Stdout, text: &[u8]) -> io::Result<()> {
    to.write_all(text)
}

fn say_number(to: Stdout, number: u64) -> io::Result<()> {
    print!(to; " {number}")
}

pub fn say_bytes(to: Stdout, bytes: &[u8]) -> io::Result<()> {
    for x in bytes {
        say_number(to, *x as u64)?;
    }
    Ok(())
}

pub fn say_numbers(to: Stdout, numbers: &[u64]) -> io::Result<()> {
    for x in numbers {
        say_number(to, *x)?;
    }
    Ok(())
}

pub fn say_answer(to: Stdout, row: u8, first: usize, second: usize) -> io::Result<()> {
    say(to, b",")?;
    say_number(to, row as u64)?;
    say_number(to, first as u64)?;
    say_number(to, second as u64)?;
    say(to, b"\n")
}

// ---- a call

// The byte at place i, 0 after the end.
pub fn byte(call: &[u8], i: usize) -> usize
    ensures { result < 256 }
{
    if i < call.len() {
        return call[i] as usize;
    }
    0
}

// The bytes between two of the places, none if the call ends before.
pub fn part(call: &[u8], i: usize) -> &[u8]
    requires { i < 6 }
{
    let from = byte(call, 6 + i);
    let to = byte(call, 7 + i);
    if to < from {
        return &call[..0];
    }
    if call.len() < to {
        return &call[..0];
    }
    &call[from..to]
}

// Slices to lend.
pub fn lent_bytes() -> [u8; 256]
    ensures { 256 ≡ length result }
{
    [238; 256]
}

pub fn lent_numbers() -> [u64; 256]
    ensures { 256 ≡ length result }
{
    [238; 256]
}
