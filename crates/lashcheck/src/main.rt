// The program: a stack sheet on standard input, its answer sheet on standard output. A refusal is a line of its two numbers.
// Where reading or writing fails, a message on standard error says so; after a failed read nothing is written. (The exit status
// is then 0 too, and a pipe that nobody reads ends the program as the system does.)

#![tactic(auto)]

mod input; // input.rt: the sheet's bytes, read
mod output; // output.rt: what is written for a sheet

use std::io::{Result, Write};

// A sheet's first 452 bytes decide what comes of it, so no more are read.
fn main(rt: HostRuntime) -> Result<()> {
    let mut sheet = [0u8; 452];
    let n = match input::read(&mut rt.stdin(), &mut sheet) {
        Ok(n) => n,
        Err(error) => return eprintln!(rt; "lashcheck: cannot read standard input: {error}"),
    };
    let mut out = [0u8; 834];
    let k = output::reply(&sheet[..n], &mut out);
    match rt.stdout().write_all(&out[..k]) {
        Ok(()) => Ok(()),
        Err(error) => eprintln!(rt; "lashcheck: cannot write standard output: {error}"),
    }
}
