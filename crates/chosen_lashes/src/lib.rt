// The lashes of one choice of the gear (document 02, P13), with lengths and stiffnesses that were found once for all choices.

#![tactic(auto)]

ghost use Rattle.std.specs.Prelude.{◌≡◌, ℕ, ◌<◌, ◌≤◌, take, get_or, length, replicate};
ghost use Rattle.sheet.specs.Layout.{blank_lash};
ghost use Rattle.sheet.specs.Inner.Limits.{LashLimits};
ghost use Rattle.figures_lashes.specs.Inner.Lashes.{LashesMeasured};
ghost use Rattle.chosen_lashes.specs.Inner.Gathered.{held_in, gathered};

use gear::Gear;
use lash_forces::hook_level;
use sheet::Lash;
use sheet_fields::blank_lash;
use statics::LashMeasures;

// Those of m lashes, which are measured, that a choice uses: bit k is set where lash k is used. What is measured of them is put into `out`,
// which holds zeros.
pub fn gather(
    choice: u8,
    lashes: [Lash; 8],
    m: usize,
    measures: &LashMeasures,
    out: &mut LashMeasures,
) -> Gear
    requires m_bound { (m ≤ 8) × ((j : ℕ) → j < m → LashLimits 10 (get_or (take m lashes) j blank_lash)) }
    requires lashes_measured { LashesMeasured m (take m lashes) measures.now.lengths measures.now.stiffnesses }
    requires zeros { (out.old.lengths ≡ replicate 8 0) × (out.old.stiffnesses ≡ replicate 8 0) × (out.old.levels ≡ replicate 10 0) }
    ensures { held_in result out.new.lengths out.new.stiffnesses out.new.levels ≡ gathered choice (take m lashes) }
{
    let mut held = [blank_lash(); 8];
    let mut count = 0;
    let mut rest = choice;
    for j in 0..m {
        if rest % 2 == 1 {
            let l = lashes[j];
            let at = hook_level(l) - 1;
            held[count] = l;
            out.lengths[count] = measures.lengths[j];
            out.stiffnesses[count] = measures.stiffnesses[j];
            out.levels[at] += measures.stiffnesses[j];
            count += 1;
        }
        rest /= 2;
    }
    Gear {
        lashes: held,
        count,
    }
}
