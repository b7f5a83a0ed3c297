// Asks for the arrangements of the gear aboard what standard input asks and tells what came out.
//
// A question is a head of six bytes (length of the list buffer, length of the stack sheet, length of the gear section, 2 each), then the
// sheet and the section. Numbers lie least byte first. For each a line: `taken`, the list's length, its count and each of its choices; or
// `refused` and the two numbers.

#![tactic(auto)]

ghost use Rattle.std.specs.Prelude.{◌<◌, ◌≤◌, length, OnSome, IfSome};

use arith::bytes;
use case_io::Output;
use std::io::Result;

// No question asks for a longer list buffer.
const LONGEST: usize = 260;

// The length of the list buffer, the stack sheet and the gear section.
#[derive(Drop)]
struct Question<'a> {
    room: usize,
    sheet: &'a [u8],
    gear: &'a [u8],
}

fn main() {
    let mut buffer = [0u8; 65536];
    let n = case_io::read(&mut buffer);
    let _ = ask_all(&Output, &buffer[..n]);
}

// One question after another, to the end of the input or to bytes that are none.
fn ask_all(rt: &impl Print, input: &[u8]) -> Result<()> {
    let mut rest = input;
    while !rest.is_empty() {
        let Some(question) = next(&mut rest) else {
            return println!(rt; "bad input");
        };
        ask(rt, &question)?;
    }
    Ok(())
}

// Takes a question from the front of the input, if all of it is there and its buffer not too long.
fn next<'a>(input: &mut &'a [u8]) -> Option<Question<'a>>
    ensures room { IfSome result (λ q. q.room ≤ 260) }
    ensures shorter { OnSome result (length input.new.now < length input.old.now) }
{
    let head = input.split_off(..6)?;
    let room = bytes::read2(head, 0) as usize;
    let sheet = input.split_off(..bytes::read2(head, 2) as usize)?;
    let gear = input.split_off(..bytes::read2(head, 4) as usize)?;
    if room > LONGEST {
        return None;
    }
    Some(Question { room, sheet, gear })
}

// Asks a question and tells what came out.
fn ask(rt: &impl Print, question: &Question<'_>) -> Result<()>
    requires { question.now.room ≤ 260 }
{
    let mut buffer = [0u8; LONGEST];
    let list = &mut buffer[..question.room];
    match arrangements::list(question.sheet, question.gear, list) {
        Ok(n) => tell_taken(rt, &list[..n]),
        Err(refusal) => println!(rt; "refused {} {}", refusal.number, refusal.second),
    }
}

// Tells the numbers of a list: its length, its count and each of its choices.
fn tell_taken(rt: &impl Print, list: &[u8]) -> Result<()>
    requires { 2 ≤ length list.now }
{
    print!(rt; "taken {} {}", list.len(), bytes::read2(list, 0))?;
    for choice in &list[2..] {
        print!(rt; " {choice}")?;
    }
    println!(rt;)
}
