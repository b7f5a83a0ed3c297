// Lashes: their lengths and stiffnesses, and their forces at the shifts of the levels. Scales: see statics/specs/inner/WholeNumbers.

#![tactic(auto)]

ghost use Rattle.std.specs.Prelude.{◌≡◌, ℕ, ◌<◌, ◌≤◌, ◌^◌, take, drop, get_or, length, replicate};
ghost use Rattle.sheet.specs.Layout.{blank_lash};
ghost use Rattle.sheet.specs.Inner.Limits.{LashLimits};
ghost use Rattle.statics.specs.Inner.WholeNumbers.{lee_part, windward_part};
ghost use Rattle.figures_lashes.specs.Inner.Lashes.{LashesMeasured, LevelStiffnesses, LashesFigured, VerticalsOn};

use lash_forces::{athwart_part, forces_of, hook_corner, hook_level, on_posts, stiffness_of};
use lash_length::search;
use sheet::{Lash, lashing_of};
use statics::LashMeasures;

// Lengths and stiffnesses of an end's lashes, and the sums of the stiffnesses by level.
pub fn lash_stiffnesses(lashes: [Lash; 8], m: usize, measures: &mut LashMeasures)
    requires m_bound { (m ≤ 8) × ((j : ℕ) → j < m → LashLimits 10 (get_or (take m lashes) j blank_lash)) }
    requires zeros { (measures.old.lengths ≡ replicate 8 0) × (measures.old.stiffnesses ≡ replicate 8 0)
        × (measures.old.levels ≡ replicate 10 0) }
    ensures lashes_measured { LashesMeasured m (take m lashes) measures.new.lengths measures.new.stiffnesses }
    ensures level_stiffnesses { LevelStiffnesses (take m lashes) measures.new.levels }
{
    for j in 0..m {
        let l = lashes[j];
        let long = search(l).length;
        let stiff = stiffness_of(l, long);
        let at = hook_level(l) - 1;
        measures.lengths[j] = long;
        measures.stiffnesses[j] = stiff;
        measures.levels[at] += stiff;
    }
}

// The figures of an end's lashes: tensions, then athwart parts, then vertical parts, eight of each; and the sums of the vertical parts by
// corner on each post.
pub fn lash_figures(
    lashes: [Lash; 8],
    m: usize,
    lengths: &[u64],
    stiffnesses: &[u64],
    d: &[u64],
    lee: &mut [u64],
    windward: &mut [u64],
    forces: &mut [u32],
)
    requires m_bound { (m ≤ 8) × ((j : ℕ) → j < m → LashLimits 10 (get_or (take m lashes) j blank_lash)) }
    requires lashes_measured { LashesMeasured m (take m lashes) lengths.now stiffnesses.now × ((i : ℕ) → get_or d.now i 0 ≤ 2 ^ 40) }
    requires lengths_len { (length lengths.now ≡ 8) × (length stiffnesses.now ≡ 8) × (length d.now ≡ 11) }
    requires lee_value { (lee.old ≡ replicate 22 0) × (windward.old ≡ replicate 22 0) × (forces.old ≡ replicate 24 0) }
    ensures lashes_figured { LashesFigured m (take m lashes) d.now (take 8 forces.new) (take 8 (drop 8 forces.new))
        (drop 16 forces.new) × (length forces.new ≡ 24) }
    ensures verticals_on { VerticalsOn lee_part (take m lashes) d.now lee.new }
    ensures verticals_on_2 { VerticalsOn windward_part (take m lashes) d.now windward.new }
{
    for j in 0..m {
        let l = lashes[j];
        let at = hook_level(l);
        let corner = hook_corner(l);
        let part = athwart_part(stiffnesses[j], d[at]);
        let f = forces_of(l, lengths[j], part);
        let u = on_posts(lashing_of(l), part);
        forces[j] = f.tension;
        forces[8 + j] = f.athwart;
        forces[16 + j] = f.vertical;
        lee[corner] = lee[corner] + u.lee;
        windward[corner] = windward[corner] + u.windward;
    }
}
