// The numbers of `roll`: the parts of an acceleration, in steps that fit 64 bits, and tests of what is given.
//
// A thousandth of g has 3,000,000 × the ship's length (mm) parts, so that gravity and heave are a whole number of them; the roll is in
// whole thousandths and parts, rounded up, which leaves every thousandth as it is rounded from the exact sum or difference.

#![tactic(auto)]

ghost use Rattle.std.specs.Prelude.{◌&&◌, ◌≡◌, ◌+◌, ◌*◌, ◌≤◌, ◌^◌, ltb, pos, nat_abs, ◌-ℤ◌};
ghost use Rattle.std.specs.Int.Signed.{le_z};
ghost use Rattle.arith.specs.Inner.Sizes.{Small};
ghost use Rattle.roll_parts.specs.Inner.Parts.{parts_of, still_of, roll_of, up_of, down_of};

use arith::rounding::{ceil_div, split_product_up};

// The roll in whole thousandths of g, and the parts over them, rounded up.
#[derive(Clone, Copy)]
pub struct RollPart {
    pub whole: u64,
    pub rest: u64,
}

// Gravity and heave in parts: trig × (1 + factor / (30 length) × a0), where trig is the sine or the cosine.
pub fn still_part(trig: u64, heave: u64, length: u64, factor: u64) -> u64
    requires { (trig ≤ 10000) × (heave ≤ 10000) × (length ≤ 500000) × (factor ≤ 51 * length) }
    ensures { (result ≡ still_of trig heave length factor) × (result ≤ 2 ^ 53) }
{
    trig * (300000 * length + heave * factor)
}

// The roll at a distance from the roll centre or the centreline.
pub fn roll_part(angle: u64, period: u64, distance: u64, length: u64) -> RollPart
    requires { (angle ≤ 9000) × (1 ≤ period) × (period ≤ 10000) × (distance ≤ 1000000) × (1 ≤ length) × (length ≤ 500000) }
    ensures { (result ≡ roll_of angle period distance length) × (result.whole ≤ 2 ^ 36) × (result.rest ≤ parts_of length) }
{
    let turn = 701 * angle * distance;
    let over = 100 * (period * period);
    RollPart {
        whole: turn / over,
        rest: split_product_up(turn % over, 30000 * length, period, period),
    }
}

// The thousandths of both together, rounded up.
pub fn rounded_up(still: u64, roll: RollPart, parts: u64) -> u64
    requires { (1 ≤ parts) × (still ≤ 2 ^ 53) × (roll.whole ≤ 2 ^ 36) × (roll.rest ≤ 2 ^ 41) }
    ensures { result ≡ up_of still roll parts }
{
    let whole = roll.whole;
    let rest = roll.rest;
    whole + ceil_div(still + rest, parts)
}

// The thousandths with the roll taken off, rounded down, below zero too.
pub fn rounded_down(still: u64, roll: RollPart, parts: u64) -> i64
    requires { (1 ≤ parts) × (parts ≤ 2 ^ 41) × (still ≤ 2 ^ 53) × (roll.whole ≤ 2 ^ 36) × (roll.rest ≤ parts) }
    ensures { (result ≡ down_of still roll parts) × Small (2 ^ 55) result }
{
    let whole = roll.whole;
    let rest = roll.rest;
    ((still + (parts - rest)) / parts) as i64 - (whole + 1) as i64
}

// How far apart two places are.
pub fn distance(a: i32, b: i32) -> u64
    requires { (nat_abs a ≤ 500000) × (nat_abs b ≤ 500000) }
    ensures { (result ≡ nat_abs (a -ℤ b)) × (result ≤ 1000000) }
{
    u64::from(a.abs_diff(b))
}

// Beyond 500 m either way.
pub fn far(mm: i32) -> bool
    ensures { result ≡ ltb 500000 (nat_abs mm) }
{
    (mm < -500000) | (500000 < mm)
}

// From 0 to the ship's length.
pub fn along(x: i32, length: u32) -> bool
    ensures { result ≡ le_z (pos 0) x && le_z x (pos length) }
{
    (0 <= x as i64) & (x as i64 <= length as i64)
}

// Whether the squares add up to more than 15,000 less or more than 100,000,000. Above 10,000 one alone is too great, and two might
// leave 64 bits.
pub fn off_unit(sine: u32, cosine: u32) -> bool
    ensures { result ≡ ltb 15000 (nat_abs (pos (sine * sine + cosine * cosine) -ℤ pos 100000000)) }
{
    if (10000 < sine) | (10000 < cosine) {
        return true;
    }
    let sum = sine * sine + cosine * cosine;
    (sum < 99985000) | (100015000 < sum)
}
