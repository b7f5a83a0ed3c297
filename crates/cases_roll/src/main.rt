// Works out the accelerations for the conditions of standard input and tells of each what came out.
//
// A condition is 40 bytes: sine, cosine, heave, angle, period, length, centre, x, y, z, each in 4 bytes, least byte first, the last four
// in two's complement. For each a line: `given`, A_T, A_Vmax and A_Vmin, or `refused` and the two numbers.

#![tactic(auto)]

ghost use Rattle.std.specs.Prelude.{◌+◌, ◌≤◌, length};

use arith::bytes;
use case_io::Output;
use roll::Condition;
use std::io::Result;

fn main() {
    let mut buffer = [0u8; 65536];
    let n = case_io::read(&mut buffer);
    let _ = roll_all(&Output, &buffer[..n]);
}

// One condition after another, to the end of the input or to bytes that are none.
fn roll_all(rt: &impl Print, input: &[u8]) -> Result<()> {
    for bytes in input.chunks(40) {
        let Some(condition) = condition_in(bytes) else {
            return println!(rt; "bad input");
        };
        tell(rt, condition)?;
    }
    Ok(())
}

// The condition in 40 bytes, unless they are fewer.
fn condition_in(bytes: &[u8]) -> Option<Condition> {
    if bytes.len() < 40 {
        return None;
    }
    Some(Condition {
        sine: number(bytes, 0),
        cosine: number(bytes, 4),
        heave: number(bytes, 8),
        angle: number(bytes, 12),
        period: number(bytes, 16),
        length: number(bytes, 20),
        centre: number(bytes, 24).cast_signed(),
        x: number(bytes, 28).cast_signed(),
        y: number(bytes, 32).cast_signed(),
        z: number(bytes, 36).cast_signed(),
    })
}

fn number(input: &[u8], at: usize) -> u32
    requires { at + 4 ≤ length input.now }
{
    bytes::read4(input, at) as u32
}

// Works out a condition's accelerations and tells what came out.
fn tell(rt: &impl Print, condition: Condition) -> Result<()> {
    match roll::condition_a(condition) {
        Ok(a) => println!(rt; "given {} {} {}", a.aT, a.aVmax, a.aVmin),
        Err(refusal) => println!(rt; "refused {} {}", refusal.number, refusal.second),
    }
}
