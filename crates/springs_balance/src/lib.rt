// Whether each level of an end is in balance under given shifts, in whole numbers: the test that a candidate found in floats must pass.

#![tactic(auto)]

ghost use Rattle.std.specs.Prelude.{◌≡◌, ℕ, ◌+◌, ◌*◌, ◌/◌, ◌<◌, ◌≤◌, ◌^◌, leb, pos, nat_abs, ◌+ℤ◌, ◌-ℤ◌, length, get_or};
ghost use Rattle.arith.specs.Inner.Sizes.{Small};
ghost use Rattle.arith.specs.Inner.Rounding.{scaled_down};
ghost use Rattle.springs.specs.Inner.Promise.{stiffness_scale, most_held, most_loaded, farthest};
ghost use Rattle.springs.specs.Equations.{closed_spring};
ghost use Rattle.springs.specs.Inner.Balance.{allowed, in_balance, most_force};

use arith::rounding::split_product;
use springs::SpringChain;

// Stiffnesses are in 2^-22 N/mm.
const SCALE: u64 = 4194304;

// What a level may be out of balance by, in 2^-28 N, the rounding of its lashes' stiffness included: 0.00494 N.
const ALLOWED: u64 = 1326000;

// What a level's lashes hold it with at the shift d, in 2^-28 N.
fn held_by(kappa: u64, d: u64) -> u64
    requires { (kappa ≤ most_held) × (d ≤ farthest) }
    ensures { (result ≡ scaled_down kappa d stiffness_scale) × (result ≤ 620000 * farthest) }
{
    split_product(kappa, d, SCALE, 1)
}

// The force of a tier's spring, from the shifts of the levels over and under it, in 2^-28 N.
fn force_of(k: u64, upper: u64, lower: u64) -> i64
    requires { (k ≤ closed_spring) × (upper ≤ farthest) × (lower ≤ farthest) }
    ensures { (result ≡ pos (k * upper) -ℤ pos (k * lower)) × Small (2 * most_force) result }
{
    (k * upper) as i64 - (k * lower) as i64
}

// The size of a signed number: its value without the sign.
fn size(x: i64) -> u64
    requires { Small (2 ^ 62) x }
    ensures { (result ≡ nat_abs x) × (result ≤ 2 ^ 62) }
{
    x.unsigned_abs()
}

// Whether a level of shift d is in balance: the spring under it and its lashes hold it, the spring over it and its load push it.
fn in_balance(under: i64, over: i64, kappa: u64, omega: u64, d: u64) -> bool
    requires small { Small (2 * most_force) under × Small (2 * most_force) over }
    requires kappa_le_most_held { (kappa ≤ most_held) × (omega ≤ most_loaded) × (d ≤ farthest) }
    ensures { result ≡ leb (nat_abs (under -ℤ over +ℤ pos (scaled_down kappa d stiffness_scale) -ℤ pos omega) + d / 2 ^ 20) allowed }
{
    let left = under - over + (held_by(kappa, d) as i64) - (omega as i64);
    size(left) + d / 1048576 <= ALLOWED
}

// Whether each level is in balance under the shifts d, from the top down.
pub fn balanced(chain: SpringChain<'_>, d: &[u64]) -> bool
    requires { ((i : ℕ) → get_or d.now i 0 ≤ farthest) × (chain.n < length d.now) }
    ensures { let c = chain.entry in result ≡ in_balance c.n c.k.now c.kappa.now c.omega.now d.now }
{
    let mut over = 0;
    for j in (0..chain.n).rev() {
        let under = force_of(chain.k[j], d[j + 1], d[j]);
        if !in_balance(under, over, chain.kappa[j], chain.omega[j], d[j + 1]) {
            return false;
        }
        over = under;
    }
    true
}
