// Shifts of an end's levels found in floats: a candidate by name, of which nothing is claimed.

#![tactic(auto)]

ghost use Rattle.std.specs.Prelude.{◌≡◌, ◌≤◌, replicate};
ghost use Rattle.springs.specs.Inner.Promise.{most_held, most_loaded};
ghost use Rattle.springs.specs.Inner.Candidate.{step_down, candidate, Sloped, risen, by_level};
ghost use Rattle.springs.specs.Equations.{closed_spring};

use floats::{float_of, near};
use springs::{SpringChain, UpperChain};

// From the levels over a tier to the level under it: k its spring, kappa and omega the lashes and the load of the level over it.
pub fn step(over: UpperChain, k: u64, kappa: u64, omega: u64) -> UpperChain
    requires { (k ≤ closed_spring) × (kappa ≤ most_held) × (omega ≤ most_loaded) }
    ensures { result ≡ step_down over k kappa omega }
{
    let spring = float_of(k);
    let p = float_of(kappa) * 0.0000002384185791015625 * over.s + over.p;
    let y = float_of(omega) * over.s + over.y;
    let ks = spring * over.s;
    let s = ks + p;
    let inv = 1.0 / s;
    UpperChain {
        s: s,
        p: spring * p,
        y: spring * y,
        a: y * inv,
        w: ks * inv,
    }
}

// From the top down: the shift of level i is a[i] and w[i] of the shift under it.
fn slope(chain: SpringChain<'_>, a: &mut [f64; 11], w: &mut [f64; 11])
    ensures { let c = chain.entry in Sloped 0 c.n c.k.now c.kappa.now c.omega.now (by_level a.new) (by_level w.new) }
{
    let mut over = UpperChain {
        s: 1.0,
        p: 0.0,
        y: 0.0,
        a: 0.0,
        w: 0.0,
    };
    for j in (0..chain.n).rev() {
        over = step(over, chain.k[j], chain.kappa[j], chain.omega[j]);
        a[j + 1] = over.a;
        w[j + 1] = over.w;
    }
}

// From the deck up, in whole numbers.
fn rise(n: usize, a: &[f64; 11], w: &[f64; 11], d: &mut [u64; 11])
    requires { (n ≤ 10) × (d.old ≡ replicate 11 0) }
    ensures { d.new ≡ risen n (by_level a.now) (by_level w.now) }
{
    let mut x = 0.0;
    for i in 0..n {
        x = a[i + 1] + w[i + 1] * x;
        d[i + 1] = near(x) % 1099511627776;
    }
}

// The candidate of an end put into d.
pub fn guess(chain: SpringChain<'_>, d: &mut [u64; 11])
    requires { d.old ≡ replicate 11 0 }
    ensures { let c = chain.entry in d.new ≡ candidate c.n c.k.now c.kappa.now c.omega.now }
{
    let mut a = [0.0f64; 11];
    let mut w = [0.0f64; 11];
    slope(chain, &mut a, &mut w);
    rise(chain.n, &a, &w, d);
}
