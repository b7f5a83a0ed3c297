// Reports the bays of standard input and tells of each what came out.
//
// A question is a head of twelve bytes (length of the report buffer, 2; the least and the most that the greatest racking may be, 4 each;
// length of the bay sheet, 2), then the bay sheet. Numbers lie least byte first. For each a line: `taken`, the report's length, the number
// of accepted rows, the total mass, whether the greatest racking is `inside` or `outside`, then of each row the answer's length and, where
// that is not 0, the verdict; or `refused` and the three numbers.

#![tactic(auto)]

ghost use Rattle.std.specs.Prelude.{◌<◌, ◌≤◌, length, OnSome, IfSome};

use arith::bytes;
use case_io::Output;
use std::io::Result;

// No question asks for a longer report buffer.
const LONGEST: usize = 20073;

// A question: the length of the report buffer, the bounds of the greatest racking, and the bay sheet.
#[derive(Drop)]
struct Question<'a> {
    room: usize,
    least: u64,
    most: u64,
    bay: &'a [u8],
}

fn main() {
    let mut buffer = [0u8; 65536];
    let n = case_io::read(&mut buffer);
    let _ = ask_all(&Output, &buffer[..n]);
}

// One question after another, to the end of the input or to bytes that are none.
fn ask_all(rt: &impl Print, input: &[u8]) -> Result<()> {
    let mut rest = input;
    while !rest.is_empty() {
        let Some(question) = next(&mut rest) else {
            return println!(rt; "bad input");
        };
        ask(rt, &question)?;
    }
    Ok(())
}

// Takes a question from the front of the input, if all of it is there and its buffer not too long.
fn next<'a>(input: &mut &'a [u8]) -> Option<Question<'a>>
    ensures room { IfSome result (λ q. q.room ≤ 20073) }
    ensures shorter { OnSome result (length input.new.now < length input.old.now) }
{
    let head = input.split_off(..12)?;
    let room = bytes::read2(head, 0) as usize;
    let bay = input.split_off(..bytes::read2(head, 10) as usize)?;
    if room > LONGEST {
        return None;
    }
    Some(Question {
        room,
        least: bytes::read4(head, 2),
        most: bytes::read4(head, 6),
        bay,
    })
}

// Asks a question and tells what came out.
fn ask(rt: &impl Print, question: &Question<'_>) -> Result<()>
    requires { question.now.room ≤ 20073 }
{
    let mut buffer = [0u8; LONGEST];
    let report = &mut buffer[..question.room];
    match bay::report(question.bay, report) {
        Ok(n) => tell_taken(rt, question, &report[..n]),
        Err(why) => println!(rt; "refused {} {} {}", why.number, why.second, why.row),
    }
}

// Tells of a report its length, its totals and its rows.
fn tell_taken(rt: &impl Print, question: &Question<'_>, report: &[u8]) -> Result<()>
    requires { 9 ≤ length report.now }
{
    let mass = bytes::read4(report, 1);
    let racking = bytes::read4(report, 5);
    let place = if question.least <= racking && racking <= question.most {
        "inside"
    } else {
        "outside"
    };
    print!(rt; "taken {} {} {mass} {place}", report.len(), report[0])?;
    tell_rows(rt, &report[9..])?;
    println!(rt;)
}

// Tells of each row its answer's length and, where that is not 0, the verdict.
fn tell_rows(rt: &impl Print, rows: &[u8]) -> Result<()> {
    let mut rest = rows;
    while let Some(head) = rest.split_off(..2) {
        let size = bytes::read2(head, 0) as usize;
        print!(rt; " {size}")?;
        if let Some(answer) = rest.split_off(..size)
            && let Some(verdict) = answer.first()
        {
            print!(rt; ":{verdict}")?;
        }
    }
    Ok(())
}
