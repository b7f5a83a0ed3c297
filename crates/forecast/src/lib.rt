// Short voyages by forecast (document 02, P9): the check of a sheet with the factor of a forecast in place of the route factor.

#![tactic(auto)]

ghost use Rattle.std.specs.Prelude.{Ok, ◌≡◌, length};
ghost use Rattle.sheet.specs.Layout.{sheet_of};
ghost use Rattle.sheet.specs.Refusals.{first, sheet_rows};
ghost use Rattle.answer.specs.Checked.{kept};
ghost use Rattle.forecast.specs.Forecasts.{Forecast};
ghost use Rattle.forecast.specs.Inner.Named.{OwnAnswer, forecast_returned, forecast_written};

use sheet::Refusal;
use statics::LoadRule;

// The answer to a taken sheet, unless its route, the voyage or the breadth turns it back.
fn answer_sheet(
    s: &[u8],
    wave: u16,
    breadth: u16,
    hours: u32,
    answer: &mut [u8],
) -> Result<usize, Refusal>
    requires { first (sheet_rows s.now) ≡ Ok tt }
    ensures { OwnAnswer (sheet_of s.now) wave breadth hours answer.old answer.new result }
{
    let head = sheet_fields::head_of(s);
    if head.route != 0 {
        return Err(Refusal {
            number: 20,
            second: 0,
        });
    }
    if (72 <= hours) | (breadth == 0) {
        return Err(Refusal {
            number: 21,
            second: 0,
        });
    }
    let found = forecast_factor::factor_of(wave, breadth);
    let by_route = load_rules::rule_of(head);
    let rule = LoadRule {
        share: by_route.share,
        factor: found.factor,
    };
    stack_check::answer_with(s, sheet_fields::own_tiers(s), rule, answer)
}

// The check of a stack sheet by a forecast: wave height and breadth in cm, the voyage in hours. A refusal leaves the buffer as it was.
pub fn forecast(
    sheet: &[u8],
    wave: u16,
    breadth: u16,
    hours: u32,
    answer: &mut [u8],
) -> Result<usize, Refusal>
    ensures answered { Forecast kept sheet.now wave breadth hours answer.old answer.new result }
    ensures named { (result ≡ forecast_returned sheet.now wave breadth hours (length answer.old))
        × (answer.new ≡ forecast_written sheet.now wave breadth hours answer.old) }
{
    sheet_decode::refusals::test_sheet(sheet)?;
    answer_sheet(sheet, wave, breadth, hours, answer)
}
