// Document 01, "Limits": whether the fields of a tier or a lash lie within them, a lash is on the stack, and its place in the order of lashes.

#![tactic(auto)]

ghost use Rattle.std.specs.Prelude.{◌≡◌, ◌<◌};
ghost use Rattle.sheet.specs.Layout.{tier_fits, lash_fits, breaking_fits};
ghost use Rattle.sheet.specs.Refusals.{off_tiers};
ghost use Rattle.sheet_limits.specs.Inner.Ranks.{rank};

use sheet::{Lash, Tier};

pub fn breaking_fits(load: u32) -> bool
    ensures { result ≡ breaking_fits load }
{
    (1 <= load) & (load <= 2000000)
}

pub fn tier_fits(t: Tier) -> bool
    ensures { result ≡ tier_fits t }
{
    (((t.size == 20) & ((t.height == 2438) | (t.height == 2591)))
        | ((t.size == 40) & ((t.height == 2591) | (t.height == 2896))))
        & (t.wind <= 3)
        & ((1 <= t.mass) & (t.mass <= 30480))
        & (t.aT <= 1500)
        & (t.aVmax <= 3000)
        & (t.aVmin <= 1000)
        & (t.aVmin <= t.aVmax)
}

pub fn lash_fits(l: Lash) -> bool
    ensures { result ≡ lash_fits l }
{
    (l.hook <= 1)
        & (l.kind <= 1)
        & (l.material <= 3)
        & (l.lx <= 5000)
        & ((500 <= l.ly) & (l.ly <= 10000))
        & ((500 <= l.lz) & (l.lz <= 20000))
        & ((50 <= l.area) & (l.area <= 1000))
        & ((10000 <= l.modulus) & (l.modulus <= 200000))
        & breaking_fits(l.breakingLoad)
}

// On no tier of n, or on the bottom corner of tier 1.
pub fn off_tiers(n: u64, l: Lash) -> bool
    ensures { result ≡ off_tiers n l }
{
    (l.tier == 0) | (n < l.tier as u64) | ((l.tier == 1) & (l.hook == 1))
}

// A lash's place in the order, by tier, then hook, then kind, as one number: no branch on which of them decides.
pub fn rank(l: Lash) -> u64
    ensures { (result ≡ rank l) × (result < 16777216) }
{
    65536 * (l.tier as u64) + 256 * (l.hook as u64) + (l.kind as u64)
}
