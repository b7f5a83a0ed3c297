// Whether the check accepts a stack with the same lashes at both ends (document 02, P13). What does not depend on the lashes is given.

#![tactic(auto)]

ghost use Rattle.std.specs.Prelude.{◌≡◌, List, take};
ghost use Rattle.sheet.specs.Fits.{Fits};
ghost use Rattle.sheet.specs.declared.Tier.{Tier};
ghost use Rattle.statics.specs.Reported.{Fitting};
ghost use Rattle.figures.specs.Inner.Ends.{figures_with};
ghost use Rattle.figures_tiers.specs.Inner.Loads.{TiersMeasured};
ghost use Rattle.figures_lashes.specs.Inner.Lashes.{LashesMeasured};
ghost use Rattle.gear.specs.Gear.{with_lashes};
ghost use Rattle.chosen_lashes.specs.Inner.Gathered.{held_in, held_of};
ghost use Rattle.arrangements_judge.specs.Inner.Judged.{EndGiven, no_finding, Given, accepted_with};

use end_verdict::no_finding;
use figures::figures_at;
use gear::Gear;
use limits::PullLimit;
use sheet::Sheet;
use springs::SpringChain;
use statics::{EndArrays, LashMeasures, TierMeasures, TierSprings};

// A stack before its lashes are chosen: its sheet, the lower limit of a pull, and what else does not depend on the lashes.
#[derive(Clone, Copy)]
pub struct Stack {
    pub sheet: Sheet,
    pub pull: PullLimit,
    pub springs: TierSprings,
    pub tiers: TierMeasures,
}

// Whether an end with springs k has no finding with these lashes, which are measured. Of the tiers only what is measured of them is needed,
// as in figures_at.
fn end_without_finding(stack: &Stack, k: &[u64; 10], g: Gear, measures: &LashMeasures) -> bool
    requires end_given { EndGiven stack.now.sheet.ntiers k.now stack.now.tiers.heights g.count (take g.count g.lashes) measures.now.levels
        stack.now.tiers.loads stack.now.tiers.weights }
    requires lashes_measured { LashesMeasured g.count (take g.count g.lashes) measures.now.lengths measures.now.stiffnesses }
    ensures { (ts : List Tier) → TiersMeasured stack.now.sheet.ntiers ts stack.now.tiers.heights stack.now.tiers.weights
        → Fitting (figures_with stack.now.sheet.ntiers k.now ts (take g.count g.lashes) stack.now.tiers.loads)
        → result ≡ no_finding stack.now.sheet.ntiers k.now ts g.lashes g.count stack.now.pull stack.now.tiers.loads }
{
    let n = stack.sheet.ntiers;
    let chain = SpringChain {
        n,
        k,
        kappa: &measures.levels,
        omega: &stack.tiers.loads,
    };
    let d = springs_solve::solve(chain);
    let mut out = EndArrays::ZEROS;
    figures_at(
        n,
        k,
        &stack.tiers,
        g.lashes,
        g.count,
        measures,
        &d,
        &mut out,
    );
    no_finding(n, stack.pull, g.lashes, g.count, &out)
}

// Whether a stack with these lashes, which are measured, at both ends is accepted.
pub fn accepts(stack: &Stack, g: Gear, measures: &LashMeasures) -> bool
    requires stack_given { Given stack.now }
    requires held { (held_in g measures.now.lengths measures.now.stiffnesses measures.now.levels ≡ held_of (take g.count g.lashes))
        × Fits (with_lashes (take g.count g.lashes) stack.now.sheet) }
    ensures { result ≡ accepted_with (take g.count g.lashes) stack.now.sheet }
{
    if !end_without_finding(stack, &stack.springs.door, g, measures) {
        return false;
    }
    end_without_finding(stack, &stack.springs.closed, g, measures)
}
