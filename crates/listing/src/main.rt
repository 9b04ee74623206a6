// The listing program, by which a built automaton can be read: a rule file on standard input, its listing on standard output.

#![tactic(auto)]

use listing_text::LONGEST;
use std::io;

fn main(rt: HostRuntime) -> io::Result<()> {
    // one byte more than is listed tells a long input apart
    let mut file = [0u8; 4097];
    let n = slice_read::read_full(&mut rt.stdin(), &mut file)?;
    let mut listing = [0u8; LONGEST];
    let end = listing_text::listing(&file[..n], &mut listing);
    rt.stdout().write_all(&listing[..end])
}
