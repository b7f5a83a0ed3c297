// The level under a tier: the forces on its posts, and what it hands down to the levels below, by figures_posts.

#![tactic(auto)]

ghost use Rattle.std.specs.Prelude.{◌≡◌, ◌+◌, ◌*◌, ◌≤◌, ◌^◌, pos, ◌+ℤ◌, ◌*ℤ◌};
ghost use Rattle.arith.specs.Inner.Sizes.{Small};
ghost use Rattle.statics.specs.Inner.WholeNumbers.{compression_from, tension_from};
ghost use Rattle.figures_posts.specs.Inner.Posts.{word};

use figures_posts::{compression_of, couple_of, moment_under, tension_of};
use statics::PostParts;

// What stands above a level: the moment of the tiers, and the vertical parts of the lashes at this level or above.
#[derive(Clone, Copy)]
pub struct Above {
    pub moment: i64,
    pub parts: PostParts,
}

#[derive(Clone, Copy)]
pub struct Level {
    pub above: Above,
    pub compression: u32,
    pub tension: u32,
}

// The level under a tier of racking `part`, with the vertical parts of the lashes at it: on the bottom corner of that tier, which count in
// tension too, and on the top corner of the tier below. vmax and vmin: half of V with A_Vmax and A_Vmin.
pub fn level_under(
    above: Above,
    part: i64,
    height: u16,
    bottom: PostParts,
    top: PostParts,
    vmax: u64,
    vmin: u64,
) -> Level
    requires small { Small (2 ^ 60) above.moment × Small (2 ^ 45) part × (height ≤ 2896) }
    requires lee_bound { (above.parts.lee ≤ 15 * 2 ^ 58) × (above.parts.windward ≤ 15 * 2 ^ 58) }
    requires lee_bound_2 { (bottom.lee ≤ 2 ^ 57) × (bottom.windward ≤ 2 ^ 57) × (top.lee ≤ 2 ^ 57) × (top.windward ≤ 2 ^ 57) }
    requires vmax_bound { (vmax ≤ 2 ^ 40) × (vmin ≤ 2 ^ 40) }
    ensures moment_value { result.above.moment ≡ pos height *ℤ part +ℤ above.moment }
    ensures lee_value { result.above.parts.lee ≡ above.parts.lee + bottom.lee + top.lee }
    ensures windward_value { result.above.parts.windward ≡ above.parts.windward + bottom.windward + top.windward }
    ensures compression_value { result.compression ≡ word (compression_from vmax (pos height *ℤ part +ℤ above.moment)
        (above.parts.lee + bottom.lee + top.lee) (above.parts.windward + bottom.windward + top.windward)) }
    ensures tension_value { result.tension ≡ word (tension_from vmin (pos height *ℤ part +ℤ above.moment)
        (above.parts.lee + bottom.lee) (above.parts.windward + bottom.windward)) }
{
    let moment = moment_under(above.moment, part, height);
    let couple = couple_of(moment);
    let over = above.parts;
    let held = PostParts {
        lee: over.lee + bottom.lee,
        windward: over.windward + bottom.windward,
    };
    let parts = PostParts {
        lee: held.lee + top.lee,
        windward: held.windward + top.windward,
    };
    Level {
        above: Above {
            moment: moment,
            parts: parts,
        },
        compression: compression_of(vmax, couple, parts),
        tension: tension_of(vmin, couple, held),
    }
}
