// One step of the chain of springs, in whole numbers: what a level hands down, and its shift from the one under it.

#![tactic(auto)]

ghost use Rattle.std.specs.Prelude.{◌≡◌, ◌+◌, ◌≤◌};
ghost use Rattle.springs.specs.Inner.Promise.{farthest};
ghost use Rattle.springs.specs.Inner.Elimination.{stiffness_down, load_down, shift_up, InRange, most_load_together};

use arith::rounding::scaled;

// Stiffnesses are in 2^-22 N/mm. At a level that nothing holds, above the uppermost lash, the scale cancels: that spares divisions.
const SCALE: u64 = 4194304;

// The stiffness that a level hands down by the spring k under it, of its lashes kappa and the stiffness x handed to it.
pub fn stiffness_down(k: u64, kappa: u64, x: u64) -> u64
    requires { InRange k kappa x }
    ensures { result ≡ stiffness_down k kappa x }
{
    let stiffness = kappa + x;
    if stiffness == 0 {
        return 0;
    }
    scaled(k * stiffness, SCALE, k * SCALE + stiffness)
}

// The load that it hands down, of its own, omega, and the load y handed to it.
pub fn load_down(k: u64, kappa: u64, omega: u64, x: u64, y: u64) -> u64
    requires { InRange k kappa x × (omega + y ≤ most_load_together) }
    ensures { result ≡ load_down k kappa omega x y }
{
    let stiffness = kappa + x;
    let load = omega + y;
    if stiffness == 0 {
        return load;
    }
    scaled(k * load, SCALE, k * SCALE + stiffness)
}

// Its shift, where the level under it has the shift p.
pub fn shift_up(k: u64, kappa: u64, omega: u64, x: u64, y: u64, p: u64) -> u64
    requires { InRange k kappa x × (omega + y ≤ most_load_together) × (p ≤ farthest) }
    ensures { result ≡ shift_up k kappa omega x y p }
{
    let stiffness = kappa + x;
    let load = omega + y;
    if stiffness == 0 {
        return p + load / k;
    }
    scaled(load + k * p, SCALE, k * SCALE + stiffness)
}
