// Shifts of both ends' levels found in floats, in step, since then one end's divisions run beside the other's: a candidate of each end by
// name, of which nothing is claimed. Apart from springs_guess, since one end after the other takes longer (docs/SPEED.md).

#![tactic(auto)]

ghost use Rattle.std.specs.Prelude.{◌≡◌, ◌≤◌, replicate};
ghost use Rattle.springs.specs.Inner.Candidate.{candidate, Sloped, risen, every_fourth};

use floats::near;
use springs::{SpringChain, UpperChain};
use springs_guess::step;

// From the top down: the shift of the level over tier j is a number and a share of the shift under it. Four floats a tier: the numbers of
// the door end and of the closed end, then the two shares; side by side, both ends take one step of the processor. The loads are read once,
// since the ends have them in common.
fn slope_both(door: SpringChain<'_>, closed: SpringChain<'_>, slopes: &mut [f64; 40])
    requires { (closed.n ≡ door.n) × (closed.omega.now ≡ door.omega.now) }
    ensures door_sloped { let c = door.entry in
        Sloped 0 c.n c.k.now c.kappa.now c.omega.now (every_fourth 0 slopes.new) (every_fourth 2 slopes.new) }
    ensures closed_sloped { let c = closed.entry in
        Sloped 0 c.n c.k.now c.kappa.now c.omega.now (every_fourth 1 slopes.new) (every_fourth 3 slopes.new) }
{
    let top = UpperChain {
        s: 1.0,
        p: 0.0,
        y: 0.0,
        a: 0.0,
        w: 0.0,
    };
    let mut door_over = top;
    let mut closed_over = top;
    for j in (0..door.n).rev() {
        door_over = step(door_over, door.k[j], door.kappa[j], door.omega[j]);
        closed_over = step(closed_over, closed.k[j], closed.kappa[j], door.omega[j]);
        slopes[4 * j] = door_over.a;
        slopes[4 * j + 1] = closed_over.a;
        slopes[4 * j + 2] = door_over.w;
        slopes[4 * j + 3] = closed_over.w;
    }
}

// From the deck up, in whole numbers.
fn rise_both(n: usize, slopes: &[f64; 40], d: &mut [u64; 11], e: &mut [u64; 11])
    requires { (n ≤ 10) × (d.old ≡ replicate 11 0) × (e.old ≡ replicate 11 0) }
    ensures d_after { d.new ≡ risen n (every_fourth 0 slopes.now) (every_fourth 2 slopes.now) }
    ensures e_after { e.new ≡ risen n (every_fourth 1 slopes.now) (every_fourth 3 slopes.now) }
{
    let mut x = 0.0;
    let mut y = 0.0;
    for i in 0..n {
        x = slopes[4 * i] + slopes[4 * i + 2] * x;
        y = slopes[4 * i + 1] + slopes[4 * i + 3] * y;
        d[i + 1] = near(x) % 1099511627776;
        e[i + 1] = near(y) % 1099511627776;
    }
}

// The candidates of both ends, which have their loads in common: that of the door end put into d, that of the closed end into e.
pub fn guess_both(
    door: SpringChain<'_>,
    closed: SpringChain<'_>,
    d: &mut [u64; 11],
    e: &mut [u64; 11],
)
    requires in_common { (closed.n ≡ door.n) × (closed.omega.now ≡ door.omega.now) }
    requires d_value { (d.old ≡ replicate 11 0) × (e.old ≡ replicate 11 0) }
    ensures d_after { let c = door.entry in d.new ≡ candidate c.n c.k.now c.kappa.now c.omega.now }
    ensures e_after { let c = closed.entry in e.new ≡ candidate c.n c.k.now c.kappa.now c.omega.now }
{
    let mut slopes = [0.0f64; 40];
    slope_both(door, closed, &mut slopes);
    rise_both(door.n, &slopes, d, e);
}
