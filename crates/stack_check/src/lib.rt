// The check: bytes of a stack sheet in, bytes of an answer out; and the answer to a taken sheet with other tiers than its own, for calls
// whose sheet no bytes hold.

#![tactic(auto)]

ghost use Rattle.std.specs.Prelude.{Ok, ◌≡◌, ◌≤◌, length};
ghost use Rattle.sheet.specs.Fits.{Fits};
ghost use Rattle.sheet.specs.Layout.{sheet_of};
ghost use Rattle.sheet.specs.Refusals.{first, sheet_rows};
ghost use Rattle.sheet.specs.Inner.Changed.{with_tiers};
ghost use Rattle.answer.specs.Checked.{Checked, AnsweredBy, room_for, kept};
ghost use Rattle.answer.specs.Inner.Named.{answer_by, returned_as, written_as, returned, written};

use answer_encode::write_answer;
use figures::figures_by;
use sheet::{Refusal, Sheet, Tier};
use statics::{EndArrays, LoadRule, StackArrays};

// The room that an answer is given, in bytes; none is longer.
const LONGEST: usize = 834;

// The answer to a sheet within the limits, by what its loads go by, written from the buffer's start; a short buffer is left as it was.
fn answer_to(t: Sheet, rule: LoadRule, answer: &mut [u8]) -> Result<usize, Refusal>
    requires { Fits t × (rule.share ≤ 20) × (rule.factor ≤ 1000) }
    ensures answered { AnsweredBy kept rule t answer.old answer.new result }
    ensures named { (result ≡ returned_as (room_for (length answer.old)) (answer_by rule t))
        × (answer.new ≡ written_as (room_for (length answer.old)) (answer_by rule t) answer.old) }
{
    if answer.len() < LONGEST {
        return Err(Refusal {
            number: 13,
            second: LONGEST,
        });
    }
    let mut figures = StackArrays {
        door: EndArrays::ZEROS,
        closed: EndArrays::ZEROS,
    };
    figures_by(t, rule, &mut figures);
    let n = write_answer(answer, t, &figures);
    Ok(n)
}

// The same for a taken sheet with these tiers in place of its own, from its bytes.
pub fn answer_with(
    s: &[u8],
    tiers: [Tier; 10],
    rule: LoadRule,
    answer: &mut [u8],
) -> Result<usize, Refusal>
    requires { (first (sheet_rows s.now) ≡ Ok tt) × Fits (with_tiers tiers (sheet_of s.now)) × (rule.share ≤ 20)
        × (rule.factor ≤ 1000) }
    ensures answered { AnsweredBy kept rule (with_tiers tiers (sheet_of s.now)) answer.old answer.new
        result }
    ensures named { (result ≡ returned_as (room_for (length answer.old))
        (answer_by rule (with_tiers tiers (sheet_of s.now))))
        × (answer.new ≡ written_as (room_for (length answer.old))
        (answer_by rule (with_tiers tiers (sheet_of s.now))) answer.old) }
{
    answer_to(sheet_fields::sheet_with(s, tiers), rule, answer)
}

// The check of a stack sheet. A taken sheet's answer is written from the buffer's start; a refusal leaves the buffer as it was.
pub fn check(sheet: &[u8], answer: &mut [u8]) -> Result<usize, Refusal>
    ensures checked { Checked kept sheet.now answer.old answer.new result }
    ensures named { (result ≡ returned sheet.now (length answer.old))
        × (answer.new ≡ written sheet.now answer.old) }
{
    // Not by `?`, so that an edit can change what is handed up (must-fail/refusal_without_second).
    if let Err(refusal) = sheet_decode::refusals::test_sheet(sheet) {
        return Err(refusal);
    }
    let rule = load_rules::rule_of(sheet_fields::head_of(sheet));
    answer_with(sheet, sheet_fields::own_tiers(sheet), rule, answer)
}
