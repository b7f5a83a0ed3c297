// Whether an end of a stack has no finding (document 01, "The answer sheet"), where the findings themselves are not asked for.

#![tactic(auto)]

ghost use Rattle.std.specs.Prelude.{◌≡◌, ◌+◌, ◌≤◌, ◌-◌, pos, nat_abs, length, get_or};
ghost use Rattle.answer.specs.Limits.{racking_limit};
ghost use Rattle.answer_put.specs.Inner.Puts.{lash_limit};
ghost use Rattle.statics.specs.Inner.InArrays.{end_in};
ghost use Rattle.end_verdict.specs.Inner.NoneOver.{none_over, none_found};

use answer_put::racking_over;
use limits::{Limits, PullLimit, safe_load};
use sheet::Lash;
use statics::EndArrays;

// Three loops, as those of answer_put, and for the reason given there.

// Whether none of n rackings exceeds its limit. No branch on a size: it would often be predicted wrongly.
fn rackings_kept(xs: &[i32], n: usize) -> bool
    requires { (n ≤ 10) × (n ≤ length xs.now) }
    ensures { result ≡ none_over (λ i. nat_abs (get_or xs.now (i - 1) (pos 0))) (λ i. racking_limit) 1 n }
{
    let mut kept = true;
    for k in 0..n {
        kept = kept & !racking_over(xs[k]);
    }
    kept
}

// Whether none of n sizes exceeds one limit, at the indexes from `first` on.
fn all_kept(first: usize, xs: &[u32], limit: u32, n: usize) -> bool
    requires { (first ≤ 1) × (n ≤ 10) × (first + n ≤ length xs.now) }
    ensures { result ≡ none_over (λ i. get_or xs.now i 0) (λ i. limit) first n }
{
    let mut kept = true;
    for k in 0..n {
        kept = kept & !(limit < xs[first + k]);
    }
    kept
}

// Whether none of m tensions exceeds the safe load of its lash.
fn pulls_kept(lashes: [Lash; 8], xs: &[u32], m: usize) -> bool
    requires { (m ≤ 8) × (m ≤ length xs.now) }
    ensures { result ≡ none_over (λ j. get_or xs.now j 0) (lash_limit lashes) 0 m }
{
    let mut kept = true;
    for j in 0..m {
        let l = lashes[j];
        let limit = safe_load(l.material, l.breakingLoad);
        kept = kept & !(limit < xs[j]);
    }
    kept
}

// Whether an end of n tiers and m lashes has no finding: its rackings; its compressions, then its tensions; of its lashes the tensions,
// then the athwart parts, then the vertical parts.
pub fn no_finding(
    n: usize,
    pull: PullLimit,
    lashes: [Lash; 8],
    m: usize,
    figures: &EndArrays,
) -> bool
    requires { (n ≤ 10) × (m ≤ 8) }
    ensures { result ≡ none_found n pull lashes m (end_in figures.now) }
{
    let start = 0;
    let tension = 11;
    let athwart = 8;
    let vertical = 16;
    rackings_kept(&figures.racking, n)
        & all_kept(1, &figures.levels[start..tension], Limits::COMPRESSION, n)
        & all_kept(0, &figures.levels[tension..], pull.limit, n)
        & pulls_kept(lashes, &figures.forces[start..athwart], m)
        & all_kept(0, &figures.forces[vertical..], Limits::LASH_VERTICAL, m)
        & all_kept(
            0,
            &figures.forces[athwart..vertical],
            Limits::LASH_ATHWART,
            m,
        )
}
