// Reading into a buffer until it is full.

#![tactic(auto)]

ghost use Rattle.std.specs.Prelude.{◌≤◌, ◌<◌, length, take, IfOk};
ghost use Rattle.std.specs.Io.KnownBytes.{Consumes, IsAtEnd};

use std::io;
use std::io::Read;

// Reads until `buffer` is full or the input ends: how many bytes came, which are the input's next. An error of a read is passed on.
// A turn goes on by as many bytes as a read brings, so no range counts the turns.
pub fn fill<R: Read>(input: &mut R, buffer: &mut [u8]) -> io::Result<usize>
    ensures bound { IfOk result (λ n. n ≤ length buffer.new) }
    ensures bytes { IfOk result (λ n. Consumes (R.remaining input.old) (R.remaining input.new) (take n buffer.new)) }
    ensures end { IfOk result (λ n. n < length buffer.new → IsAtEnd (R.remaining input.new)) }
{
    let mut held = 0;
    while held < buffer.len() {
        let n = input.read(&mut buffer[held..])?;
        if n == 0 {
            break;
        }
        held += n;
    }
    Ok(held)
}
