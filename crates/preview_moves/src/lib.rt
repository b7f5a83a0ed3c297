// Preview of a move (document 02, P7): the tiers of a sheet with another mass in one of them.

#![tactic(auto)]

ghost use Rattle.std.specs.Prelude.{◌≡◌, ◌<◌, set};
ghost use Rattle.sheet.specs.Fits.{tier_at};
ghost use Rattle.preview_moves.specs.Inner.Moved.{weighing};

use sheet::Tier;

// The tiers with another mass in the k-th, from 0.
pub fn with_mass(tiers: [Tier; 10], k: usize, mass: u16) -> [Tier; 10]
    requires { k < 10 }
    ensures { result ≡ set tiers k (weighing mass (tier_at tiers k)) }
{
    let mut copy = tiers;
    copy[k].mass = mass;
    copy
}
