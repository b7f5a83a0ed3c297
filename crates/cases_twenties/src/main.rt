// Judges the twenties of standard input and tells of each question what came out.
//
// A question is 64 bytes: table, acceleration and count of masses, then thirteen masses of which the first ones count, each number in
// 4 bytes, least byte first. For each a line: table, acceleration, count; then `yes` or `no`, total and permitted mass, or `refused`
// and the two numbers.

#![tactic(auto)]

ghost use Rattle.std.specs.Prelude.{◌+◌, ◌≤◌, length, IfSome};

use arith::bytes;
use case_io::Output;
use std::array;
use std::io::Result;

// A table, an acceleration and masses, of which the first `count` count.
#[derive(Drop)]
struct Question {
    table: u32,
    acceleration: u32,
    count: usize,
    masses: [u32; 13],
}

fn main() {
    let mut buffer = [0u8; 65536];
    let n = case_io::read(&mut buffer);
    let _ = judge_all(&Output, &buffer[..n]);
}

// One question after another, to the end of the input or to bytes that are none.
fn judge_all(rt: &impl Print, input: &[u8]) -> Result<()> {
    for bytes in input.chunks(64) {
        let Some(question) = question_in(bytes) else {
            return println!(rt; "bad input");
        };
        judge(rt, &question)?;
    }
    Ok(())
}

// The question in 64 bytes, unless they are fewer or it counts more masses than it has.
fn question_in(bytes: &[u8]) -> Option<Question>
    ensures { IfSome result (λ q. q.count ≤ 13) }
{
    if bytes.len() < 64 {
        return None;
    }
    let count = number(bytes, 8) as usize;
    if count > 13 {
        return None;
    }
    Some(Question {
        table: number(bytes, 0),
        acceleration: number(bytes, 4),
        count,
        masses: array::from_fn(|i| number(bytes, 12 + 4 * i)),
    })
}

fn number(input: &[u8], at: usize) -> u32
    requires { at + 4 ≤ length input.now }
{
    bytes::read4(input, at) as u32
}

// Judges a question and tells what came out.
fn judge(rt: &impl Print, question: &Question) -> Result<()>
    requires { question.now.count ≤ 13 }
{
    let count = question.count;
    print!(rt; "{} {} {count} ", question.table, question.acceleration)?;
    match twenties::judge(
        question.table,
        question.acceleration,
        &question.masses[..count],
    ) {
        Ok(verdict) => {
            let word = if verdict.yes { "yes" } else { "no" };
            println!(rt; "{word} {} {}", verdict.total, verdict.permitted)
        }
        Err(refusal) => println!(rt; "refused {} {}", refusal.number, refusal.second),
    }
}
