// Standard input and output of the programs that run cases: std's printing over a file descriptor, with no heap. A read that fails ends
// the input; what cannot be written is passed over, and what follows it is written all the same.

#![tactic(auto)]

ghost use Rattle.std.specs.Prelude.{◌≡◌, Ok};
ghost use Rattle.io.specs.Counts.{IsPrefixLen};

use std::fmt;
use std::fmt::{Display, Write};
use std::io::{Print, Result};

// File descriptors of standard input and output.
const STDIN_FILENO: i32 = 0;

const STDOUT_FILENO: i32 = 1;

// Reads until the buffer is full, the input ends or a read fails, and answers how many bytes stand at the start of the buffer.
pub fn read(buffer: &mut [u8]) -> usize
    ensures { IsPrefixLen result buffer.new }
{
    io::read_full(STDIN_FILENO, buffer)
}

// Standard output. No write to it answers with an error.
#[derive(Clone, Copy)]
pub struct Output;

impl Write for Output {
    fn write_str(&mut self, text: &str) -> fmt::Result
        ensures { result ≡ Ok tt }
    {
        io::write_all(STDOUT_FILENO, text.as_bytes());
        Ok(())
    }
}

impl Print for Output {
    fn print<D: Display + Drop>(&self, value: D) -> Result<()>
        ensures { result ≡ Ok tt }
    {
        let mut out = *self;
        let _ = out.write(value);
        Ok(())
    }

    fn println<D: Display + Drop>(&self, value: D) -> Result<()>
        ensures { result ≡ Ok tt }
    {
        let mut out = *self;
        let _ = out.writeln(value);
        Ok(())
    }

    fn write_all(&self, bytes: &[u8]) -> Result<()>
        ensures { result ≡ Ok tt }
    {
        io::write_all(STDOUT_FILENO, bytes);
        Ok(())
    }
}
