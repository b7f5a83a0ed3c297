// The shifts of an end's levels by elimination, in whole numbers. From the top down, each level learns what stiffness and load the tiers
// over it hand down to it; then, from the deck up, each level's shift follows from the one under it.

#![tactic(auto)]

ghost use Rattle.std.specs.Prelude.{◌≡◌, ℕ, ◌<◌, get_or};
ghost use Rattle.springs.specs.Inner.Elimination.{eliminated, HandedDown};

use springs::SpringChain;
use springs_steps::{load_down, shift_up, stiffness_down};

// What is handed down to each level, 1 to n: stiffness to x, load to y, where level n gets nothing. The deck needs nothing.
fn hand_down(chain: SpringChain<'_>, x: &mut [u64; 11], y: &mut [u64; 11])
    requires { (get_or x.old chain.n 0 ≡ 0) × (get_or y.old chain.n 0 ≡ 0) }
    ensures { let c = chain.entry in HandedDown 1 c.n c.k.now c.kappa.now c.omega.now x.new y.new }
{
    for j in (1..chain.n).rev() {
        y[j] = load_down(
            chain.k[j],
            chain.kappa[j],
            chain.omega[j],
            x[j + 1],
            y[j + 1],
        );
        x[j] = stiffness_down(chain.k[j], chain.kappa[j], x[j + 1]);
    }
}

// The shifts of levels 1 to n put into d, where x and y are handed down.
fn climb(chain: SpringChain<'_>, x: &[u64; 11], y: &[u64; 11], d: &mut [u64; 11])
    requires handed_down { HandedDown 1 chain.n chain.k.now chain.kappa.now chain.omega.now x.now y.now }
    requires zeros { (get_or d.old 0 0 ≡ 0) × ((j : ℕ) → chain.n < j → get_or d.old j 0 ≡ 0) }
    ensures { let c = chain.entry in d.new ≡ eliminated c.n c.k.now c.kappa.now c.omega.now }
{
    for i in 0..chain.n {
        d[i + 1] = shift_up(
            chain.k[i],
            chain.kappa[i],
            chain.omega[i],
            x[i + 1],
            y[i + 1],
            d[i],
        );
    }
}

// The shifts of levels 1 to n put into d, in 2^-28 mm. At the deck and behind n stand zeros.
pub fn eliminate(chain: SpringChain<'_>, d: &mut [u64; 11])
    requires { (get_or d.old 0 0 ≡ 0) × ((j : ℕ) → chain.n < j → get_or d.old j 0 ≡ 0) }
    ensures { let c = chain.entry in d.new ≡ eliminated c.n c.k.now c.kappa.now c.omega.now }
{
    let mut x = [0u64; 11];
    let mut y = [0u64; 11];
    hand_down(chain, &mut x, &mut y);
    climb(chain, &x, &y, d);
}
