// A reader's bytes into a lent slice, as far as both go: how the programs take their input.

#![tactic(auto)]

ghost use Rattle.std.specs.Prelude.{ℕ, ◌<◌, IfOk, OnErr, length, take};
ghost use Rattle.std.specs.Io.{ReadsAtMost};
ghost use Rattle.std.specs.Io.KnownBytes.{Consumes, IsAtEnd};

use std::io;
use std::io::Read;

// Reads until the slice is full or the input ends, and answers how many bytes it put at the slice's start. A read that fails is the answer's error,
// and no other error comes: what was read until then stands at the slice's start, and the reader has lost that alone.
// Where the reader's bytes are known, these are the first of them, and fewer than the slice has room for only if no more are left.
pub fn read_full<R: Read>(reader: &mut R, buf: &mut [u8]) -> io::Result<usize>
    ensures bound { ReadsAtMost result buf.new }
    ensures bytes { IfOk result (λ n. Consumes (R.remaining reader.old) (R.remaining reader.new) (take n buf.new)) }
    ensures failed { OnErr result ((n : ℕ) × Consumes (R.remaining reader.old) (R.remaining reader.new) (take n buf.new)) }
    ensures all_or_full { IfOk result (λ n. n < length buf.new → IsAtEnd (R.remaining reader.new)) }
{
    let mut done = 0;
    // A while: a read may give fewer bytes than there is room for.
    while done < buf.len() {
        let n = reader.read(&mut buf[done..])?;
        if n == 0 {
            break;
        }
        done += n;
    }
    Ok(done)
}
