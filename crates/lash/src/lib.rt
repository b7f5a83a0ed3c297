// The calls for programs in C: what each returns, in one number.

#![tactic(auto)]

ghost use Rattle.std.specs.Prelude.{◌≡◌, ◌+◌, ◌*◌, ◌≤◌, length};
ghost use Rattle.answer.specs.Checked.{Checked, kept};
ghost use Rattle.answer.specs.Inner.Named.{returned, written};
ghost use Rattle.preview_moves.specs.Previews.{Previewed};
ghost use Rattle.preview_moves.specs.Inner.Moved.{AsChecked};
ghost use Rattle.forecast.specs.Forecasts.{Forecast};
ghost use Rattle.forecast.specs.Inner.Named.{forecast_returned, forecast_written};
ghost use Rattle.bay.specs.Reports as B;
ghost use Rattle.bay.specs.Reports.{BayReported};
ghost use Rattle.bay.specs.Inner.Named.{bay_returned, bay_written};
ghost use Rattle.side.specs.Sides.{Sided};
ghost use Rattle.arrangements.specs.Arrangements.{Listed};
ghost use Rattle.arrangements.specs.Inner.Named.{list_returned, list_written};
ghost use Rattle.roll.specs.Rounded.{condition_a};
ghost use Rattle.packing.specs.Called.{Called};
ghost use Rattle.lash.specs.BayCalled.{BayCalled};
ghost use Rattle.lash.specs.RolledIn.{RolledIn};
ghost use Rattle.lash.specs.Told.{Told};

use bay_rows::BayRefusal;
use packing::{joined, packed_accelerations, packed_outcome, packed_verdict};
use roll::Condition;

// Checks a sheet as stack_check::check does. The number is in the low 8 bits of what is returned, the second number above them.
#[unsafe(no_mangle)]
pub extern "C" fn lash_check(sheet: &[u8], answer: &mut [u8]) -> u64
    ensures checked { Called (Checked kept sheet.now answer.old answer.new) result }
    ensures named { Called (λ o. (o ≡ returned sheet.now (length answer.old))
        × (answer.new ≡ written sheet.now answer.old)) result }
{
    let outcome = stack_check::check(sheet, answer);
    packed_outcome(outcome)
}

// Previews a move as preview::preview does: tiers are counted from 1. What is returned is told as lash_check tells it.
#[unsafe(no_mangle)]
pub extern "C" fn lash_preview(sheet: &[u8], tier: u32, mass: u16, answer: &mut [u8]) -> u64
    ensures previewed { Called (Previewed kept sheet.now tier mass answer.old answer.new) result }
    ensures named { Called (AsChecked sheet.now tier mass answer.old answer.new) result }
{
    let outcome = preview::preview(sheet, tier, mass, answer);
    packed_outcome(outcome)
}

// Checks a sheet by a forecast as forecast::forecast does: wave height and breadth in cm, the voyage in hours. What is returned is told as
// lash_check tells it.
#[unsafe(no_mangle)]
pub extern "C" fn lash_forecast(
    sheet: &[u8],
    wave: u16,
    breadth: u16,
    hours: u32,
    answer: &mut [u8],
) -> u64
    ensures answered { Called (Forecast kept sheet.now wave breadth hours answer.old
        answer.new) result }
    ensures named { Called (λ o. (o ≡ forecast_returned sheet.now wave breadth hours (length answer.old))
        × (answer.new ≡ forecast_written sheet.now wave breadth hours answer.old)) result }
{
    let outcome = forecast::forecast(sheet, wave, breadth, hours, answer);
    packed_outcome(outcome)
}

// Reports a bay as bay::report does. The number is in the low 8 bits of what is returned, the second number, or the report's length, in
// bits 8 to 31, the row that a refusal is about in bits 32 to 39.
#[unsafe(no_mangle)]
pub extern "C" fn lash_bay(bay: &[u8], report: &mut [u8]) -> u64
    ensures reported { BayCalled (BayReported kept bay.now report.old report.new) result }
    ensures named { BayCalled (λ o. (o ≡ bay_returned bay.now (length report.old))
        × (report.new ≡ bay_written bay.now report.old)) result }
{
    let outcome = bay::report(bay, report);
    packed_bay(outcome)
}

// The three numbers of a bay's outcome in one.
fn packed_bay(o: Result<usize, BayRefusal>) -> u64
    requires { (B.number o ≤ 16) × (B.second o ≤ 20073) × (B.row o ≤ 24) }
    ensures { result ≡ B.number o + 256 * B.second o + 4294967296 * B.row o }
{
    match o {
        Ok(n) => joined(0, n),
        Err(refusal) => joined(refusal.number, refusal.second) + 4294967296 * refusal.row as u64,
    }
}

// Answers for side walls under pitching as side::side does: `pitch` is the second short sheet. What is returned is told as lash_check
// tells it.
#[unsafe(no_mangle)]
pub extern "C" fn lash_side(sheet: &[u8], pitch: &[u8], answer: &mut [u8]) -> u64
    ensures { Called (Sided sheet.now pitch.now answer.old answer.new) result }
{
    let outcome = side::side(sheet, pitch, answer);
    packed_outcome(outcome)
}

// Lists the arrangements of the gear aboard as arrangements::list does: `gear` is a count and its lashes. What is returned is told as
// lash_check tells it.
#[unsafe(no_mangle)]
pub extern "C" fn lash_arrangements(sheet: &[u8], gear: &[u8], list: &mut [u8]) -> u64
    ensures listed { Called (Listed kept sheet.now gear.now list.old list.new) result }
    ensures named { Called (λ o. (o ≡ list_returned sheet.now gear.now (length list.old))
        × (list.new ≡ list_written sheet.now gear.now list.old)) result }
{
    let outcome = arrangements::list(sheet, gear, list);
    packed_outcome(outcome)
}

// Judges twenties in forty-foot guides as twenties::judge does. A refusal's numbers are told as lash_check tells them; of a verdict,
// bit 8 is set for yes, the total is in bits 16 to 39, the permitted mass in bits 40 to 63.
#[unsafe(no_mangle)]
pub extern "C" fn lash_twenties(table: u32, acceleration: u32, masses: &[u32]) -> u64
    ensures { Told table acceleration masses.now result }
{
    let judgement = twenties::judge(table, acceleration, masses);
    match judgement {
        Ok(verdict) => packed_verdict(verdict),
        Err(refusal) => joined(refusal.number, refusal.second),
    }
}

// Works out a box's accelerations as roll::condition_a does. A refusal's numbers are told as lash_check tells them; of accelerations,
// A_T is in bits 8 to 23, A_Vmax in bits 24 to 39, A_Vmin in bits 40 to 55.
#[unsafe(no_mangle)]
pub extern "C" fn lash_roll(
    sine: u32,
    cosine: u32,
    heave: u32,
    angle: u32,
    period: u32,
    length: u32,
    centre: i32,
    x: i32,
    y: i32,
    z: i32,
) -> u64
    ensures { RolledIn (condition_a (record {
      sine = sine;
      cosine = cosine;
      heave = heave;
      angle = angle;
      period = period;
      length = length;
      centre = centre;
      x = x;
      y = y;
      z = z;
    })) result }
{
    let rolled = roll::condition_a(Condition {
        sine,
        cosine,
        heave,
        angle,
        period,
        length,
        centre,
        x,
        y,
        z,
    });
    match rolled {
        Ok(accelerations) => packed_accelerations(accelerations),
        Err(why) => joined(why.number, why.second),
    }
}
