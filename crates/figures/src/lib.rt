// Every reported force of a stack: rackings, posts and lashes of both ends.

#![tactic(auto)]

ghost use Rattle.std.specs.Prelude.{ℕ, ◌^◌, ◌≤◌, List, [], ◌≡◌, get_or, take};
ghost use Rattle.sheet.specs.Ends.{door, closed, tiers_of, lashes_of};
ghost use Rattle.sheet.specs.Fits.{Fits};
ghost use Rattle.sheet.specs.declared.Tier.{Tier};
ghost use Rattle.statics.specs.Reported.{Fitting};
ghost use Rattle.statics.specs.Inner.Computed.{figures_at, figures_by};
ghost use Rattle.statics.specs.Inner.InArrays.{both_in, end_in, Zeros};
ghost use Rattle.figures_tiers.specs.Inner.Loads.{TiersMeasured};
ghost use Rattle.figures_lashes.specs.Inner.Lashes.{LashesMeasured, LevelStiffnesses};
ghost use Rattle.figures.specs.Inner.Ends.{Workable, end_figures};

use figures_lashes::{lash_figures, lash_stiffnesses};
use figures_levels::level_figures;
use figures_tiers::loads_of;
use sheet::{Lash, Sheet};
use springs::SpringChain;
use springs_solve::solve_both;
use statics::{EndArrays, LashMeasures, LoadRule, StackArrays, TierMeasures, TierSprings};
use tier_springs::{CLOSED_SPRING, DOOR_SPRING, springs_of};

// The figures of one end at the shifts d of its levels: n tiers with the springs k, and m lashes. The loads are in the shifts. Tiers of
// the same heights and weights have the same figures, so that the tiers need not be handed on.
pub fn figures_at(
    n: usize,
    k: &[u64; 10],
    tiers: &TierMeasures,
    lashes: [Lash; 8],
    m: usize,
    measures: &LashMeasures,
    d: &[u64; 11],
    out: &mut EndArrays,
)
    requires workable { Workable n k.now tiers.now.heights m (take m lashes) [] tiers.now.weights }
    requires lashes_measured { LashesMeasured m (take m lashes) measures.now.lengths measures.now.stiffnesses
        × ((i : ℕ) → get_or d.now i 0 ≤ 2 ^ 40) }
    requires zeros { Zeros out.old }
    ensures { (ts : List Tier) → TiersMeasured n ts tiers.now.heights tiers.now.weights
        → Fitting (figures_at n k.now ts (take m lashes) d.now)
        → end_in out.new ≡ figures_at n k.now ts (take m lashes) d.now }
{
    let mut lee = [0u64; 22];
    let mut windward = [0u64; 22];
    lash_figures(
        lashes,
        m,
        &measures.lengths,
        &measures.stiffnesses,
        d,
        &mut lee,
        &mut windward,
        &mut out.forces,
    );
    level_figures(
        n,
        k,
        &tiers.heights,
        d,
        &tiers.weights,
        &lee,
        &windward,
        &mut out.racking,
        &mut out.levels,
    );
}

// The figures of both ends, whose lashes are measured.
fn figures_both(
    s: Sheet,
    springs: &TierSprings,
    tiers: &TierMeasures,
    door_lashes: &LashMeasures,
    closed_lashes: &LashMeasures,
    out: &mut StackArrays,
)
    requires door_workable { Workable s.ntiers springs.now.door tiers.now.heights s.ndoor (lashes_of door s) tiers.now.loads
        tiers.now.weights }
    requires closed_workable { Workable s.ntiers springs.now.closed tiers.now.heights s.nclosed (lashes_of closed s) tiers.now.loads
        tiers.now.weights }
    requires tiers_measured { TiersMeasured s.ntiers (tiers_of s) tiers.now.heights tiers.now.weights }
    requires lashes_measured { LashesMeasured s.ndoor (lashes_of door s) door_lashes.now.lengths door_lashes.now.stiffnesses
        × LashesMeasured s.nclosed (lashes_of closed s) closed_lashes.now.lengths closed_lashes.now.stiffnesses }
    requires level_stiffnesses { LevelStiffnesses (lashes_of door s) door_lashes.now.levels
        × LevelStiffnesses (lashes_of closed s) closed_lashes.now.levels }
    requires zeros { Zeros out.old.door × Zeros out.old.closed }
    requires fitting { Fitting (end_figures door s springs.now.door tiers.now.loads)
        × Fitting (end_figures closed s springs.now.closed tiers.now.loads) }
    ensures door_figures { end_in out.new.door ≡ end_figures door s springs.now.door tiers.now.loads }
    ensures closed_figures { end_in out.new.closed ≡ end_figures closed s springs.now.closed tiers.now.loads }
{
    let n = s.ntiers;
    let door = s.door;
    let closed = s.closed;
    let mut d = [0u64; 11];
    let mut e = [0u64; 11];
    let door_chain = SpringChain {
        n,
        k: &springs.door,
        kappa: &door_lashes.levels,
        omega: &tiers.loads,
    };
    let closed_chain = SpringChain {
        n,
        k: &springs.closed,
        kappa: &closed_lashes.levels,
        omega: &tiers.loads,
    };
    solve_both(door_chain, closed_chain, &mut d, &mut e);
    figures_at(
        n,
        &springs.door,
        tiers,
        door,
        s.ndoor,
        door_lashes,
        &d,
        &mut out.door,
    );
    figures_at(
        n,
        &springs.closed,
        tiers,
        closed,
        s.nclosed,
        closed_lashes,
        &e,
        &mut out.closed,
    );
}

// The figures of both ends with what does not depend on the lashes: here the lashes of each are measured.
fn figures_loaded(s: Sheet, springs: &TierSprings, tiers: &TierMeasures, out: &mut StackArrays)
    requires door_workable { Workable s.ntiers springs.now.door tiers.now.heights s.ndoor (lashes_of door s) tiers.now.loads
        tiers.now.weights }
    requires closed_workable { Workable s.ntiers springs.now.closed tiers.now.heights s.nclosed (lashes_of closed s) tiers.now.loads
        tiers.now.weights }
    requires tiers_measured { TiersMeasured s.ntiers (tiers_of s) tiers.now.heights tiers.now.weights }
    requires zeros { Zeros out.old.door × Zeros out.old.closed }
    requires fitting { Fitting (end_figures door s springs.now.door tiers.now.loads)
        × Fitting (end_figures closed s springs.now.closed tiers.now.loads) }
    ensures door_figures { end_in out.new.door ≡ end_figures door s springs.now.door tiers.now.loads }
    ensures closed_figures { end_in out.new.closed ≡ end_figures closed s springs.now.closed tiers.now.loads }
{
    let door = s.door;
    let closed = s.closed;
    let mut door_lashes = LashMeasures::ZEROS;
    lash_stiffnesses(door, s.ndoor, &mut door_lashes);
    let mut closed_lashes = LashMeasures::ZEROS;
    lash_stiffnesses(closed, s.nclosed, &mut closed_lashes);
    figures_both(s, springs, tiers, &door_lashes, &closed_lashes, out);
}

// The figures of both ends, with what the loads go by: here what does not depend on the lashes.
pub fn figures_by(s: Sheet, rule: LoadRule, out: &mut StackArrays)
    requires fits { Fits s × (rule.share ≤ 20) × (rule.factor ≤ 1000) }
    requires zeros { Zeros out.old.door × Zeros out.old.closed }
    ensures { both_in out.new ≡ figures_by rule s }
{
    let n = s.ntiers;
    let tiers = s.tiers;
    let mut measures = TierMeasures::ZEROS;
    loads_of(n, tiers, rule, &mut measures);
    let mut springs = TierSprings {
        door: [DOOR_SPRING; 10],
        closed: [CLOSED_SPRING; 10],
    };
    springs_of(n, tiers, &mut springs);
    figures_loaded(s, &springs, &measures, out);
}
