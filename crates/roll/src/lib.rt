// Accelerations from roll (document 02, P8): Condition A of CR 5.2.4(a), one box a call, in exact whole numbers.

#![tactic(auto)]

ghost use Rattle.std.specs.Prelude.{◌≡◌, ◌*◌, ◌≤◌, ◌^◌, pos};
ghost use Rattle.arith.specs.Fractions.{Frac, nat, absq, ◌*q◌, ◌≈◌};
ghost use Rattle.arith.specs.Wholes.{floor, ceiling};
ghost use Rattle.arith.specs.Inner.Sizes.{Small};
ghost use Rattle.roll_parts.specs.Inner.Parts.{parts_of, roll_of};
ghost use Rattle.roll.specs.ConditionA.{metres, k₃, k₃of};
ghost use Rattle.roll.specs.Rounded.{transverse, vertical_most, vertical_least, row18, condition_a};
ghost use Rattle.roll.specs.Inner.Sums.{Legal, sum, difference};

use roll_parts::RollPart;
use sheet::Refusal;

// The ship's roll and a box's place. Sine and cosine of the roll angle and the heave factor a0 in ten-thousandths, the angle in
// hundredths of a degree, the period in hundredths of a second; in mm the ship's length, the height of the roll centre, and the box's
// place: x forward of the aft perpendicular, y from the centreline, z above the baseline.
#[derive(Clone, Copy)]
pub struct Condition {
    pub sine: u32,
    pub cosine: u32,
    pub heave: u32,
    pub angle: u32,
    pub period: u32,
    pub length: u32,
    pub centre: i32,
    pub x: i32,
    pub y: i32,
    pub z: i32,
}

// A_T, A_Vmax and A_Vmin in thousandths of g.
#[derive(Clone, Copy)]
pub struct Accelerations {
    pub aT: u64,
    pub aVmax: u64,
    pub aVmin: u64,
}

// The accelerations that Condition A gives, or why none are given.
pub fn condition_a(given: Condition) -> Result<Accelerations, Refusal>
    ensures { result ≡ condition_a given }
{
    if refused(given) {
        return Err(Refusal {
            number: 18,
            second: 0,
        });
    }
    let a_t = transverse(given);
    if 1500 < a_t {
        return Err(Refusal {
            number: 19,
            second: 1,
        });
    }
    let a_vmax = vertical_most(given);
    if 3000 < a_vmax {
        return Err(Refusal {
            number: 19,
            second: 2,
        });
    }
    let a_vmin = vertical_least(given);
    if a_vmin < 0 {
        return Err(Refusal {
            number: 19,
            second: 3,
        });
    }
    Ok(Accelerations {
        aT: a_t,
        aVmax: a_vmax,
        aVmin: a_vmin as u64,
    })
}

// What 18 refuses.
fn refused(given: Condition) -> bool
    ensures { result ≡ (row18 given).holds }
{
    (given.length == 0)
        | (given.period == 0)
        | (10000 < given.period)
        | (9000 < given.angle)
        | (10000 < given.heave)
        | (500000 < given.length)
        | roll_parts::far(given.centre)
        | roll_parts::far(given.x)
        | roll_parts::far(given.y)
        | roll_parts::far(given.z)
        | !roll_parts::along(given.x, given.length)
        | roll_parts::off_unit(given.sine, given.cosine)
}

// k_3 in parts of 1 / (30 length).
fn k3_part(length: u64, x: u64) -> u64
    requires { (1 ≤ length) × (length ≤ 500000) × (x ≤ length) }
    ensures { (nat result ≈ nat (30 * length) *q k₃ (metres (pos length)) (metres (pos x))) × (result ≤ 21 * length) }
{
    if 5 * x < length {
        return 15 * length - 75 * x;
    }
    if 7 * length < 10 * x {
        return 70 * x - 49 * length;
    }
    0
}

// k_3 of the box.
fn k3_of(given: Condition) -> u64
    requires { Legal given }
    ensures { (nat result ≈ nat (30 * given.length) *q k₃of given) × (result ≤ 21 * given.length) }
{
    k3_part(given.length as u64, given.x as u64)
}

// The roll at a distance from the roll centre or the centreline.
fn roll_at(given: Condition, distance: u64) -> RollPart
    requires { Legal given × (distance ≤ 1000000) }
    ensures { (result ≡ roll_of given.angle given.period distance given.length) × (result.whole ≤ 2 ^ 36)
        × (result.rest ≤ parts_of given.length) }
{
    roll_parts::roll_part(
        given.angle as u64,
        given.period as u64,
        distance,
        given.length as u64,
    )
}

// Gravity, roll and heave together, by the sine or the cosine, in thousandths rounded up.
fn together(given: Condition, trig: u32, distance: u64) -> u64
    requires { Legal given × (trig ≤ 10000) × (distance ≤ 1000000) }
    ensures { (D : Frac) → absq D ≈ metres (pos distance) → pos result ≡ ceiling (nat 1000 *q sum given trig D) }
{
    let length = given.length as u64;
    let factor = 30 * length + k3_of(given);
    let still = roll_parts::still_part(trig as u64, given.heave as u64, length, factor);
    roll_parts::rounded_up(still, roll_at(given, distance), 3000000 * length)
}

// Gravity and heave with 1 − k_3, by the cosine, and the roll taken off, in thousandths rounded down.
fn taken_off(given: Condition, distance: u64) -> i64
    requires { Legal given × (distance ≤ 1000000) }
    ensures { ((D : Frac) → absq D ≈ metres (pos distance) → result ≡ floor (nat 1000 *q difference given given.cosine D))
        × Small (2 ^ 55) result }
{
    let length = given.length as u64;
    let factor = 30 * length - k3_of(given);
    let still = roll_parts::still_part(given.cosine as u64, given.heave as u64, length, factor);
    roll_parts::rounded_down(still, roll_at(given, distance), 3000000 * length)
}

// A_T: by the sine, at the distance from the roll centre.
fn transverse(given: Condition) -> u64
    requires { Legal given }
    ensures { pos result ≡ transverse given }
{
    together(
        given,
        given.sine,
        roll_parts::distance(given.z, given.centre),
    )
}

// A_Vmax: by the cosine, at the distance from the centreline.
fn vertical_most(given: Condition) -> u64
    requires { Legal given }
    ensures { pos result ≡ vertical_most given }
{
    together(given, given.cosine, roll_parts::distance(given.y, 0))
}

// A_Vmin: at the distance from the centreline, cut at 1,000.
fn vertical_least(given: Condition) -> i64
    requires { Legal given }
    ensures { (result ≡ vertical_least given) × Small (2 ^ 55) result }
{
    let least = taken_off(given, roll_parts::distance(given.y, 0));
    if 1000 < least {
        return 1000;
    }
    least
}
