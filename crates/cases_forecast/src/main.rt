// Checks the sheets of standard input by a forecast and tells of each what came out.
//
// A question is a head of twenty bytes (wave height, breadth, 2 each; hours, 4; length of the answer buffer, 2; the least and the most
// that the racking of tier 1 at the door end may be, 4 each; length of the sheet, 2), then the sheet. Numbers lie least byte first.
// For each a line: wave height, breadth, hours; the factor, where the breadth is not 0; then `taken`, the answer's length, its verdict
// and whether that racking is `inside` or `outside`; or `refused` and the two numbers.

#![tactic(auto)]

ghost use Rattle.std.specs.Prelude.{◌<◌, ◌≤◌, length, OnSome, IfSome};

use arith::bytes;
use case_io::Output;
use std::io::Result;

// No question asks for a longer answer buffer.
const LONGEST: usize = 834;

// A question: the forecast, the length of the answer buffer, the bounds of the racking, and the sheet.
#[derive(Drop)]
struct Question<'a> {
    wave: u16,
    breadth: u16,
    hours: u32,
    room: usize,
    least: u64,
    most: u64,
    sheet: &'a [u8],
}

fn main() {
    let mut buffer = [0u8; 65536];
    let n = case_io::read(&mut buffer);
    let _ = ask_all(&Output, &buffer[..n]);
}

// One question after another, to the end of the input or to bytes that are none.
fn ask_all(rt: &impl Print, input: &[u8]) -> Result<()> {
    let mut rest = input;
    while !rest.is_empty() {
        let Some(question) = next(&mut rest) else {
            return println!(rt; "bad input");
        };
        ask(rt, &question)?;
    }
    Ok(())
}

// Takes a question from the front of the input, if all of it is there and its buffer not too long.
fn next<'a>(input: &mut &'a [u8]) -> Option<Question<'a>>
    ensures room { IfSome result (λ q. q.room ≤ 834) }
    ensures shorter { OnSome result (length input.new.now < length input.old.now) }
{
    let head = input.split_off(..20)?;
    let room = bytes::read2(head, 8) as usize;
    let sheet = input.split_off(..bytes::read2(head, 18) as usize)?;
    if room > LONGEST {
        return None;
    }
    Some(Question {
        wave: bytes::read2(head, 0) as u16,
        breadth: bytes::read2(head, 2) as u16,
        hours: bytes::read4(head, 4) as u32,
        room,
        least: bytes::read4(head, 10),
        most: bytes::read4(head, 14),
        sheet,
    })
}

// Asks a question and tells what came out.
fn ask(rt: &impl Print, question: &Question<'_>) -> Result<()>
    requires { question.now.room ≤ 834 }
{
    let wave = question.wave;
    let breadth = question.breadth;
    let hours = question.hours;
    print!(rt; "{wave} {breadth} {hours}")?;
    if breadth != 0 {
        print!(rt;
            " factor {}",
            forecast_factor::factor_of(wave, breadth).factor
        )?;
    }
    let mut buffer = [0u8; LONGEST];
    let answer = &mut buffer[..question.room];
    match forecast::forecast(question.sheet, wave, breadth, hours, answer) {
        Ok(n) => tell_taken(rt, question, &answer[..n]),
        Err(refusal) => println!(rt; " refused {} {}", refusal.number, refusal.second),
    }
}

// Tells of an answer its length, its verdict and whether the racking of tier 1 at the door end is within the question's bounds.
fn tell_taken(rt: &impl Print, question: &Question<'_>, answer: &[u8]) -> Result<()>
    requires { 6 ≤ length answer.now }
{
    let racking = bytes::read4(answer, 2);
    let place = if question.least <= racking && racking <= question.most {
        "inside"
    } else {
        "outside"
    };
    println!(rt; " taken {} {} {place}", answer.len(), answer[0])
}
