// Asks for side walls under pitching what standard input asks and tells what came out.
//
// A question is a head of six bytes (length of the side buffer, length of the stack sheet, length of the short sheet, 2 each), then the
// two sheets. Numbers lie least byte first. For each a line: `taken`, the side answer's length, its verdict, and racking and shift of
// each tier from the lowest; or `refused` and the two numbers.

#![tactic(auto)]

ghost use Rattle.std.specs.Prelude.{◌+◌, ◌<◌, ◌≤◌, length, OnSome, IfSome};

use arith::bytes;
use case_io::Output;
use std::io::Result;

// No question asks for a longer side buffer.
const LONGEST: usize = 90;

// The length of the side buffer, the stack sheet and the short sheet.
#[derive(Drop)]
struct Question<'a> {
    room: usize,
    sheet: &'a [u8],
    pitch: &'a [u8],
}

fn main() {
    let mut buffer = [0u8; 65536];
    let n = case_io::read(&mut buffer);
    let _ = ask_all(&Output, &buffer[..n]);
}

// One question after another, to the end of the input or to bytes that are none.
fn ask_all(rt: &impl Print, input: &[u8]) -> Result<()> {
    let mut rest = input;
    while !rest.is_empty() {
        let Some(question) = next(&mut rest) else {
            return println!(rt; "bad input");
        };
        ask(rt, &question)?;
    }
    Ok(())
}

// Takes a question from the front of the input, if all of it is there and its buffer not too long.
fn next<'a>(input: &mut &'a [u8]) -> Option<Question<'a>>
    ensures room { IfSome result (λ q. q.room ≤ 90) }
    ensures shorter { OnSome result (length input.new.now < length input.old.now) }
{
    let head = input.split_off(..6)?;
    let room = bytes::read2(head, 0) as usize;
    let sheet = input.split_off(..bytes::read2(head, 2) as usize)?;
    let pitch = input.split_off(..bytes::read2(head, 4) as usize)?;
    if room > LONGEST {
        return None;
    }
    Some(Question { room, sheet, pitch })
}

// Asks a question and tells what came out.
fn ask(rt: &impl Print, question: &Question<'_>) -> Result<()>
    requires { question.now.room ≤ 90 }
{
    let mut buffer = [0u8; LONGEST];
    let answer = &mut buffer[..question.room];
    match side::side(question.sheet, question.pitch, answer) {
        Ok(n) => tell_taken(rt, &answer[..n]),
        Err(refusal) => println!(rt; "refused {} {}", refusal.number, refusal.second),
    }
}

// Tells the numbers of a side answer: its length, its verdict, and racking and shift of each tier.
fn tell_taken(rt: &impl Print, answer: &[u8]) -> Result<()>
    requires { 2 ≤ length answer.now }
{
    print!(rt; "taken {} {}", answer.len(), answer[0])?;
    for tier in answer[2..].chunks_exact(8) {
        print!(rt; " {} {}", bytes::read4(tier, 0), bytes::read4(tier, 4))?;
    }
    println!(rt;)
}
