// Document 01, "The answer sheet": its bytes, one section behind another.

#![tactic(auto)]

ghost use Rattle.std.specs.Prelude.{◌≡◌, cond, ◌≤◌, eqb, length};
ghost use Rattle.statics.specs.Inner.InArrays.{both_in};
ghost use Rattle.answer.specs.Answers.{answer_bytes};
ghost use Rattle.answer_findings.specs.Inner.Findings.{Sized};
ghost use Rattle.answer_encode.specs.Inner.Stored.{Stored};

use answer_findings::put_findings;
use answer_write::{write_end, write_found};
use arith::bytes::write1;
use sheet::Sheet;
use statics::StackArrays;

// 0 accepted, with no findings; 1 not.
fn verdict_of(findings: usize) -> u64
    ensures { (result ≡ cond (eqb findings 0) 0 1) × (result ≤ 1) }
{
    u64::from(findings != 0)
}

// The answer to a sheet, from the figures of its two ends: its length. The findings go through a buffer of their own, since a word is
// stored behind the last of them too.
pub fn write_answer(answer: &mut [u8], t: Sheet, figures: &StackArrays) -> usize
    requires { Sized t × (834 ≤ length answer.old) }
    ensures { Stored (answer_bytes t (both_in figures.now)) answer.old answer.new result }
{
    let mut found = [0u32; 108];
    let count = put_findings(&mut found, t, figures);
    let n = t.ntiers;
    write1(answer, 0, verdict_of(count));
    let p = write_end(answer, 1, n, t.ndoor, &figures.door);
    let q = write_end(answer, p, n, t.nclosed, &figures.closed);
    write1(answer, q, count as u64);
    write_found(answer, q + 1, &found, count)
}
