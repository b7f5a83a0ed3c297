// What the report of a bay takes from a row's answer (document 02, P6).

#![tactic(auto)]

ghost use Rattle.std.specs.Prelude.{◌≡◌, cond, ◌+◌, ◌*◌, ◌≤◌, ◌^◌, eqb, nat_abs, length};
ghost use Rattle.arith.specs.Bytes.{signed4};
ghost use Rattle.sheet.specs.Layout.{tiers_in};
ghost use Rattle.sheet.specs.Fits.{tier_at};
ghost use Rattle.bay_wind.specs.Sums.{sum_of, larger};
ghost use Rattle.bay_answer.specs.Inner.Totalled.{greatest_at, greatest_with, totals_with, Bounded};

use arith::bytes;

// What is said of one row, or of several together: bytes of the report, accepted rows, mass in kg, greatest racking in size.
#[derive(Clone, Copy)]
pub struct Totals {
    pub length: usize,
    pub accepted: u64,
    pub mass: u64,
    pub racking: u32,
}

// The size of the signed number whose four bytes stand at `at`.
fn size_at(s: &[u8], at: usize) -> u32
    requires { at + 4 ≤ length s.now }
    ensures { (result ≡ nat_abs (signed4 s.now at)) × (result ≤ 2 ^ 31) }
{
    let bits = bytes::read4(s, at) as u32;
    bits.cast_signed().unsigned_abs()
}

pub fn larger_of(a: u32, b: u32) -> u32
    ensures { result ≡ larger a b }
{
    a.max(b)
}

// The greatest size among n rackings of each end, whose counts stand at `door` and at `closed`.
fn greatest_at(answer: &[u8], door: usize, closed: usize, n: usize) -> u32
    requires { (n ≤ 10) × (door + 1 + 4 * n ≤ length answer.now) × (closed + 1 + 4 * n ≤ length answer.now) }
    ensures { (result ≡ larger (greatest_at answer.now door n) (greatest_at answer.now closed n)) × (result ≤ 2 ^ 31) }
{
    let mut greatest: u32 = 0;
    for i in 0..n {
        let at_door = size_at(answer, door + 1 + 4 * i);
        let at_closed = size_at(answer, closed + 1 + 4 * i);
        greatest = larger_of(greatest, larger_of(at_door, at_closed));
    }
    greatest
}

// The greatest racking in size of an answer for n tiers and so many lashes at the door end, behind which the closed end stands.
fn racking_in(answer: &[u8], n: usize, lashes: usize) -> u32
    requires { (n ≤ 10) × (lashes ≤ 8) × (10 + 16 * n + 12 * lashes ≤ length answer.now) }
    ensures { (result ≡ greatest_with answer.now n lashes) × (result ≤ 2 ^ 31) }
{
    let closed = 9 + 12 * n + 12 * lashes;
    greatest_at(answer, 1, closed, n)
}

// The mass of the first n tiers of a stack sheet together. It is read from the bytes, so that no sheet is copied for it.
pub fn mass_of(row: &[u8], n: usize) -> u64
    requires { (n ≤ 10) × (9 + 12 * n ≤ length row.now) }
    ensures { (result ≡ sum_of (λ j. (tier_at (tiers_in row.now n) j).mass) n) × (result ≤ 655350) }
{
    let mut mass: u64 = 0;
    for k in 0..n {
        let tier = sheet_fields::tier_of(row, 9 + 12 * k);
        mass += tier.mass as u64;
    }
    mass
}

// 1 for a verdict of 0.
fn accepted_by(verdict: u8) -> u64
    ensures { (result ≡ cond (eqb verdict 0) 1 0) × (result ≤ 1) }
{
    u64::from(verdict == 0)
}

// What the report takes from an answer for n tiers of this mass together and so many lashes at the door end.
pub fn totals_of(answer: &[u8], n: usize, lashes: usize, mass: u64) -> Totals
    requires { (n ≤ 10) × (lashes ≤ 8) × (10 + 16 * n + 12 * lashes ≤ length answer.now) × (length answer.now ≤ 834)
        × (mass ≤ 655350) }
    ensures { (result ≡ totals_with answer.now n lashes mass) × Bounded 1 result }
{
    Totals {
        length: 2 + answer.len(),
        accepted: accepted_by(answer[0]),
        mass,
        racking: racking_in(answer, n, lashes),
    }
}
