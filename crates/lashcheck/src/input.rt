// Standard input.
ghost use Rattle.std.specs.Prelude.{◌≡◌, ◌<◌, length, take, IfOk};
ghost use Rattle.std.specs.Io.KnownBytes.{Consumes, IsAtEnd};
ghost use Rattle.io.specs.Counts.{IsPrefixLen};
ghost use Rattle.lashcheck.specs.Inner.Texts.{counted};

use std::io::{Read, Result};

// Reads until the buffer is full or the input ends, and answers how many bytes stand at the start of the buffer.
pub fn read<R: Read>(reader: &mut R, buf: &mut [u8]) -> Result<usize>
    ensures prefix_len { IsPrefixLen (counted result) buf.new }
    ensures bytes { IfOk result (λ n. Consumes (R.remaining reader.old) (R.remaining reader.new) (take n buf.new)) }
    ensures end { IfOk result (λ n. n < length buf.new → IsAtEnd (R.remaining reader.new)) }
{
    let mut done = 0;
    while done < buf.len() {
        let n = reader.read(&mut buf[done..])?;
        if n == 0 {
            break;
        }
        done += n;
    }
    Ok(done)
}
