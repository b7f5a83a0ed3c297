// The load on each level, half of the weight above it, and the heights: the same for both ends. Scales are those of
// statics/specs/inner/WholeNumbers.

#![tactic(auto)]

ghost use Rattle.std.specs.Prelude.{◌≡◌, ℕ, ◌+◌, ◌*◌, ◌-◌, ◌/◌, ◌<◌, ◌≤◌, ◌^◌, take, get_or, replicate};
ghost use Rattle.sheet.specs.Layout.{blank_tier};
ghost use Rattle.sheet.specs.Inner.Limits.{TierLimits};
ghost use Rattle.statics.specs.Inner.WholeNumbers.{transverse_units, wind_units};
ghost use Rattle.statics.specs.Loads.{box_length};
ghost use Rattle.figures_tiers.specs.Inner.Loads.{Loaded, TiersMeasured};

use arith::rounding::scaled;
use sheet::Tier;
use statics::{LoadRule, NEWTON, TierMeasures};

// Length of a box of 20 feet and of 40 feet, mm (CR Table 2-1).
const LENGTH_20: u64 = 6058;

const LENGTH_40: u64 = 12192;

// 1 N in 2^-28 N.
const FINE_NEWTON: u64 = 268435456;

fn box_length(t: Tier) -> u64
    ensures { (result ≡ box_length t) × (result ≤ 12192) }
{
    if t.size == 20 {
        return LENGTH_20;
    }
    LENGTH_40
}

// The wind on a tier: 27 × length × height where it is exposed.
fn wind_of(t: Tier) -> u64
    requires { TierLimits t }
    ensures { (result ≡ wind_units t) × (result ≤ 27 * 12192 * 2896) }
{
    if sheet::exposed(t) {
        return 27 * box_length(t) * (t.height as u64);
    }
    0
}

// What a tier pushes with: mass × A_T, and the wind.
#[derive(Clone, Copy)]
struct TierLoad {
    transverse: u64,
    wind: u64,
}

fn tier_load(t: Tier) -> TierLoad
    requires { TierLimits t }
    ensures { (result.transverse ≡ transverse_units t) × (result.transverse ≤ 30480 * 1500)
        × (result.wind ≡ wind_units t) × (result.wind ≤ 27 * 12192 * 2896) }
{
    TierLoad {
        transverse: (t.mass as u64) * (t.aT as u64),
        wind: wind_of(t),
    }
}

// The load on the level between a tier and the tier over it: share in twentieths, factor in thousandths, all over 4,000,000,000 N.
fn level_load(share: u64, factor: u64, tier: TierLoad, over: TierLoad) -> u64
    requires share_bound { (share ≤ 20) × (factor ≤ 1000) }
    requires transverse_bound { (tier.transverse ≤ 30480 * 1500) × (tier.wind ≤ 27 * 12192 * 2896) }
    requires transverse_bound_2 { (over.transverse ≤ 30480 * 1500) × (over.wind ≤ 27 * 12192 * 2896) }
    ensures { (result ≡ (981 * factor * (share * tier.transverse + (20 - share) * over.transverse) + 40000 * (tier.wind + over.wind))
        * 2 ^ 28 / 4000000000) × (result ≤ 2 ^ 46) }
{
    let shared = share * tier.transverse + (20 - share) * over.transverse;
    scaled(
        981 * factor * shared + 40000 * (tier.wind + over.wind),
        FINE_NEWTON,
        4000000000,
    )
}

// Mass × acceleration.
fn mass_by(mass: u16, acceleration: u16) -> u64
    requires { (mass ≤ 30480) × (acceleration ≤ 3000) }
    ensures { (result ≡ mass * acceleration) × (result ≤ 30480 * 3000) }
{
    (mass as u64) * (acceleration as u64)
}

// Half of V, from mass × acceleration of the tiers above.
fn half_weight(units: u64) -> u64
    requires { units ≤ 10 * (30480 * 3000) }
    ensures { (result ≡ 981 * units * 2 ^ 18 / 400000) × (result ≤ 2 ^ 40) }
{
    981 * units * NEWTON / 400000
}

// The loads on levels 1 to n; half of V above levels 0 to n with A_Vmax, and behind these eleven with A_Vmin; and the heights of the tiers.
pub fn loads_of(n: usize, tiers: [Tier; 10], rule: LoadRule, measures: &mut TierMeasures)
    requires n_bound { (n ≤ 10) × (rule.share ≤ 20) × (rule.factor ≤ 1000) }
    requires by_index { (i : ℕ) → i < n → TierLimits (get_or (take n tiers) i blank_tier) }
    requires zeros { (measures.old.loads ≡ replicate 10 0) × (measures.old.weights ≡ replicate 22 0) }
    ensures { Loaded rule n (take n tiers) measures.new.loads
        × TiersMeasured n (take n tiers) measures.new.heights measures.new.weights }
{
    let mut over = TierLoad {
        transverse: 0,
        wind: 0,
    };
    let mut vmax_units = 0;
    let mut vmin_units = 0;
    for i in (0..n).rev() {
        let t = tiers[i];
        let tier = tier_load(t);
        measures.loads[i] = level_load(rule.share, rule.factor, tier, over);
        over = tier;
        vmax_units += mass_by(t.mass, t.aVmax);
        vmin_units += mass_by(t.mass, t.aVmin);
        measures.weights[i] = half_weight(vmax_units);
        measures.weights[11 + i] = half_weight(vmin_units);
        measures.heights[i] = t.height;
    }
}
