// Preview of a move (document 02, P7): what the check would return and write on a copy of the sheet with another mass in one tier.
// No bytes are copied: the mass is put into the tiers that are read from the sheet.

#![tactic(auto)]

ghost use Rattle.std.specs.Prelude.{Ok, ◌≡◌};
ghost use Rattle.sheet.specs.Layout.{sheet_of};
ghost use Rattle.sheet.specs.Refusals.{first, sheet_rows};
ghost use Rattle.answer.specs.Checked.{kept};
ghost use Rattle.preview_moves.specs.Previews.{Previewed};
ghost use Rattle.preview_moves.specs.Inner.Moved.{AsChecked, Answers};

use preview_moves::with_mass;
use sheet::Refusal;

// The preview of a sheet with a new mass in a tier, counted from 1. A refusal leaves the buffer as it was.
pub fn preview(sheet: &[u8], tier: u32, mass: u16, answer: &mut [u8]) -> Result<usize, Refusal>
    ensures previewed { Previewed kept sheet.now tier mass answer.old answer.new result }
    ensures named { AsChecked sheet.now tier mass answer.old answer.new result }
{
    sheet_decode::refusals::test_sheet(sheet)?;
    answer_moved(sheet, tier, mass, answer)
}

// The answer to a taken sheet with a new mass in a tier: 17 for a tier that it does not have, then 7 for a mass outside the limits.
fn answer_moved(sheet: &[u8], tier: u32, mass: u16, answer: &mut [u8]) -> Result<usize, Refusal>
    requires { first (sheet_rows sheet.now) ≡ Ok tt }
    ensures { Answers (sheet_of sheet.now) tier mass answer.old answer.new result }
{
    let number = tier as usize;
    let n = sheet_fields::byte_at(sheet, 8) as usize;
    if (number == 0) | (n < number) {
        return Err(Refusal {
            number: 17,
            second: number,
        });
    }
    let k = number - 1;
    if !((1 <= mass) & (mass <= 30480)) {
        return Err(Refusal {
            number: 7,
            second: 9 + 12 * k,
        });
    }
    let rule = load_rules::rule_of(sheet_fields::head_of(sheet));
    let own = sheet_fields::own_tiers(sheet);
    let tiers = with_mass(own, k, mass);
    stack_check::answer_with(sheet, tiers, rule, answer)
}
