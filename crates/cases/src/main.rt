// Runs the check on the cases of standard input and tells of each what came out.
//
// A case is a head of seven bytes (length of its name, 1; length of its sheet, length of its answer buffer and count of its
// fields, 2 each), then the name, the sheet and the fields. The fields are what an answer must hold, in order: each is the size
// of a number, 1 or 4 bytes, and the least and the most that it may be, 4 bytes each. Numbers lie least byte first.
//
// For each case a line: its name and the two numbers returned; for a taken sheet `inside` where the answer is numbers within
// these bounds and nothing more, else `outside at` the place of the first that is not; last `untouched` where the buffer behind
// the answer, on a refusal all of it, is as it was, else `changed`.

#![tactic(auto)]

mod fields; // fields.rt: an answer held to the fields of its case
mod layout; // layout.rt: a case, cut from the front of the input
mod space; // space.rt: the answer buffer, filled before each case

ghost use Rattle.std.specs.Prelude.{◌≤◌};

use case_io::Output;
use layout::Case;
use std::io::Result;

fn main() {
    let mut buffer = [0u8; 65536];
    let n = case_io::read(&mut buffer);
    let _ = run_all(&Output, &buffer[..n]);
}

// One case after another, to the end of the input or to bytes that are none.
fn run_all(rt: &impl Print, input: &[u8]) -> Result<()> {
    let mut rest = input;
    while !rest.is_empty() {
        let Some(case) = layout::next(&mut rest) else {
            return println!(rt; "bad input");
        };
        run(rt, &case)?;
    }
    Ok(())
}

// Checks the sheet of a case and tells what came out.
fn run(rt: &impl Print, case: &Case<'_>) -> Result<()>
    requires { case.now.room ≤ 1024 }
{
    rt.write_all(case.name)?;
    let mut buffer = space::filled();
    let answer = &mut buffer[..case.room];
    match stack_check::check(case.sheet, answer) {
        Ok(n) => {
            print!(rt; " 0 {n}")?;
            match fields::hold(case.fields, answer, n) {
                Ok(()) => print!(rt; " inside")?,
                Err(place) => print!(rt; " outside at {place}")?,
            }
            tell_rest(rt, answer, n)
        }
        Err(refusal) => {
            print!(rt; " {} {}", refusal.number, refusal.second)?;
            tell_rest(rt, answer, 0)
        }
    }
}

// Tells whether the buffer behind an answer of n bytes is as it was.
fn tell_rest(rt: &impl Print, buffer: &[u8], n: usize) -> Result<()> {
    let word = if space::untouched(buffer, n) {
        "untouched"
    } else {
        "changed"
    };
    println!(rt; " {word}")
}
