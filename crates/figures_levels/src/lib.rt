// Rackings of the tiers and forces on the posts, from the top level down, each by figures_posts.

#![tactic(auto)]

ghost use Rattle.std.specs.Prelude.{◌≡◌, ◌<◌, pos, length, take, drop, get_or, replicate};
ghost use Rattle.figures_levels.specs.Inner.Levels.{LevelInputs, LevelsFigured};

use figures_posts::{compression_of, racking_figure, racking_part};
use figures_under::{Above, level_under};
use statics::PostParts;

// The vertical parts at a corner.
fn parts_at(lee: &[u64], windward: &[u64], corner: usize) -> PostParts
    requires { (corner < length lee.now) × (corner < length windward.now) }
    ensures { (result.lee ≡ get_or lee.now corner 0) × (result.windward ≡ get_or windward.now corner 0) }
{
    PostParts {
        lee: lee[corner],
        windward: windward[corner],
    }
}

// The figures of all levels and tiers, with the sums of what stands above carried down: of each level the racking of the tier over it, the
// compression, and behind the eleven compressions the tension.
pub fn level_figures(
    n: usize,
    k: &[u64],
    heights: &[u16],
    d: &[u64],
    weights: &[u64],
    lee: &[u64],
    windward: &[u64],
    racking: &mut [i32],
    levels: &mut [u32],
)
    requires level_inputs { LevelInputs n k.now heights.now d.now weights.now lee.now windward.now }
    requires k_len { (length k.now ≡ 10) × (length heights.now ≡ 10) × (length d.now ≡ 11) × (length weights.now ≡ 22) }
    requires racking_value { (racking.old ≡ replicate 10 (pos 0)) × (levels.old ≡ replicate 21 0) }
    ensures levels_figured { LevelsFigured n k.now heights.now d.now weights.now
        lee.now windward.now racking.new (take 11 levels.new) (drop 11 levels.new) }
    ensures racking_len { (length racking.new ≡ 10) × (length levels.new ≡ 21) }
{
    let highest = parts_at(lee, windward, 2 * n);
    levels[n] = compression_of(weights[n], 0, highest);
    let mut above = Above {
        moment: 0,
        parts: highest,
    };
    for i in (0..n).rev() {
        let part = racking_part(k[i], d[i + 1], d[i]);
        let bottom = parts_at(lee, windward, 2 * i + 1);
        let top = parts_at(lee, windward, 2 * i);
        let l = level_under(
            above,
            part,
            heights[i],
            bottom,
            top,
            weights[i],
            weights[11 + i],
        );
        let force = racking_figure(part);
        racking[i] = force;
        levels[i] = l.compression;
        levels[11 + i] = l.tension;
        above = l.above;
    }
}
