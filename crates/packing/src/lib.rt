// Results packed in one number for C: the first number in the low 8 bits.

#![tactic(auto)]

ghost use Rattle.std.specs.Prelude.{cond, ◌≡◌, ◌+◌, ◌*◌, ◌<◌, ◌^◌};
ghost use Rattle.answer.specs.Checked.{number, second};
ghost use Rattle.packing.specs.AccelerationsIn.{AccelerationsIn};
ghost use Rattle.packing.specs.VerdictIn.{VerdictIn};

use roll::Accelerations;
use sheet::Refusal;
use twenties::Verdict;

// The two numbers of an outcome in one.
pub fn packed_outcome(o: Result<usize, Refusal>) -> u64
    requires { (number o < 256) × (second o < 2 ^ 56) }
    ensures { result ≡ number o + 256 * second o }
{
    match o {
        Ok(n) => joined(0, n),
        Err(refusal) => joined(refusal.number, refusal.second),
    }
}

// A number that fits 8 bits and a second one that fits the 56 above them, in one.
pub fn joined(number: u64, second: usize) -> u64
    requires { (number < 256) × (second < 2 ^ 56) }
    ensures { result ≡ number + 256 * second }
{
    number + 256 * second as u64
}

// A verdict whose masses fit 24 bits.
pub fn packed_verdict(v: Verdict) -> u64
    requires { (v.total < 2 ^ 24) × (v.permitted < 2 ^ 24) }
    ensures { VerdictIn v result }
{
    256 * bit(v.yes) + 65536 * v.total + 1099511627776 * v.permitted
}

fn bit(set: bool) -> u64
    ensures { (result ≡ cond set 1 0) × (result < 2) }
{
    u64::from(set)
}

// Accelerations that fit 16 bits each.
pub fn packed_accelerations(a: Accelerations) -> u64
    requires { (a.aT < 2 ^ 16) × (a.aVmax < 2 ^ 16) × (a.aVmin < 2 ^ 16) }
    ensures { AccelerationsIn a result }
{
    256 * a.aT + 16777216 * a.aVmax + 1099511627776 * a.aVmin
}
