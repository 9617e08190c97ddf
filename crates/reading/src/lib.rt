// Reading into a buffer of fixed size.
#![tactic(auto)]

ghost use Rattle.std.specs.Prelude.{ℕ, ◌<◌, ◌≤◌, length, take, IfOk, OnErr};
ghost use Rattle.std.specs.Io.{ReadsAtMost};
ghost use Rattle.std.specs.Io.KnownBytes.{Consumes, IsAtEnd};

use std::io::{Read, Result};

// Reads until buf is full or the input ends, and answers how many octets stand at the start of buf. They are those that the input loses, and fewer than
// buf has room for only at its end. After an error of the input, what it has lost stands at the start of buf too.
pub fn read_full<R: Read>(from: &mut R, buf: &mut [u8]) -> Result<usize>
    ensures in_bounds { ReadsAtMost result buf.new }
    ensures bytes { IfOk result (λ n. Consumes (R.remaining from.old) (R.remaining from.new) (take n buf.new)) }
    ensures end { IfOk result (λ n. n < length buf.new → IsAtEnd (R.remaining from.new)) }
    ensures err { OnErr result ((n : ℕ) × (n ≤ length buf.new)
        × Consumes (R.remaining from.old) (R.remaining from.new) (take n buf.new)) }
{
    let mut done = 0;
    // A cursor: each read says how many octets came.
    while done < buf.len() {
        let n = from.read(&mut buf[done..])?;
        if n == 0 {
            break;
        }
        done += n;
    }
    Ok(done)
}
