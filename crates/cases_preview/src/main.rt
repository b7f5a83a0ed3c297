// Previews the moves of standard input and tells of each what came out, beside the check of the copy that stands with it.
//
// A move is 512 bytes: tier, 4; mass, length of the answer buffer, length of the sheet and length of the copy, 2 each; then 250 bytes for
// the sheet and 250 for the copy, which is empty where the move is not put in. Numbers lie least byte first. For each a line: tier, mass,
// length of the answer buffer and the two numbers returned; then `same` where the buffer is as the check of the copy leaves one, else
// `other`.

#![tactic(auto)]

ghost use Rattle.std.specs.Prelude.{◌≤◌, length, IfSome};

use arith::bytes;
use case_io::Output;
use std::io::Result;

// No move asks for a longer answer buffer.
const LONGEST: usize = 1024;

// A move: its tier and mass, the length of the answer buffer, the sheet and the copy.
#[derive(Drop)]
struct Move<'a> {
    tier: u32,
    mass: u16,
    room: usize,
    sheet: &'a [u8],
    copy: &'a [u8],
}

fn main() {
    let mut buffer = [0u8; 65536];
    let n = case_io::read(&mut buffer);
    let _ = preview_all(&Output, &buffer[..n]);
}

// One move after another, to the end of the input or to bytes that are none.
fn preview_all(rt: &impl Print, input: &[u8]) -> Result<()> {
    for bytes in input.chunks(512) {
        let Some(moved) = move_in(bytes) else {
            return println!(rt; "bad input");
        };
        preview(rt, &moved)?;
    }
    Ok(())
}

// The move in 512 bytes, unless they are fewer or its buffer, its sheet or its copy is longer than there is room for.
fn move_in(bytes: &[u8]) -> Option<Move<'_>>
    ensures { IfSome result (λ m. m.room ≤ 1024) }
{
    if bytes.len() < 512 {
        return None;
    }
    let room = bytes::read2(bytes, 6) as usize;
    let sheet = bytes::read2(bytes, 8) as usize;
    let copy = bytes::read2(bytes, 10) as usize;
    if room > LONGEST || sheet > 250 || copy > 250 {
        return None;
    }
    Some(Move {
        tier: bytes::read4(bytes, 0) as u32,
        mass: bytes::read2(bytes, 4) as u16,
        room,
        sheet: &bytes[12..12 + sheet],
        copy: &bytes[262..262 + copy],
    })
}

// Previews a move and tells what came out, beside the check of its copy.
fn preview(rt: &impl Print, moved: &Move<'_>) -> Result<()>
    requires { moved.now.room ≤ 1024 }
{
    let tier = moved.tier;
    let mass = moved.mass;
    let room = moved.room;
    let mut left = [170u8; LONGEST];
    let previewed = &mut left[..room];
    let (number, second) = match preview::preview(moved.sheet, tier, mass, previewed) {
        Ok(n) => (0, n),
        Err(refusal) => (refusal.number, refusal.second),
    };
    let mut right = [170u8; LONGEST];
    let checked = &mut right[..room];
    let _ = stack_check::check(moved.copy, checked);
    let word = if *previewed == *checked {
        "same"
    } else {
        "other"
    };
    println!(rt; "{tier} {mass} {room} {number} {second} {word}")
}
