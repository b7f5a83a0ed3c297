// Findings of one kind, a word each, put into a buffer wherever a size exceeds its limit (document 01, "The answer sheet").

#![tactic(auto)]

ghost use Rattle.std.specs.Prelude.{◌≡◌, cond, [], ◌∷◌, ◌+◌, ◌-◌, ◌*◌, ◌<◌, ◌≤◌, pos, nat_abs, ltb, length, get_or, set};
ghost use Rattle.answer.specs.Limits.{racking_limit};
ghost use Rattle.answer_put.specs.Inner.Puts.{Put, lash_limit, findings_over};

use limits::{Limits, safe_load};
use sheet::Lash;

// Whether a racking exceeds its limit in size: to leeward, or to windward below zero.
pub fn racking_over(x: i32) -> bool
    ensures { result ≡ ltb racking_limit (nat_abs x) }
{
    let limit = Limits::RACKING as i32;
    (limit < x) | (x < 0 - limit)
}

// A finding at `at`, in one word: end, kind and index, least byte first; and the place behind it if `over`, else `at` again. It is stored
// in any case: a branch on `over` would often be predicted wrongly.
pub fn put_where(found: &mut [u32], at: usize, end: u8, kind: u8, index: usize, over: bool) -> usize
    requires { (at < length found.old) × (index < 256) }
    ensures put { Put found.old at (cond over (end ∷ kind ∷ index ∷ []) []) found.new result × (result ≤ at + 1) }
    ensures found_after { found.new ≡ set found.old at (end + 256 * kind + 65536 * index) }
{
    found[at] = (end as u32) + 256 * (kind as u32) + 65536 * (index as u32);
    at + (over as usize)
}

// Three loops, one for rackings, one for sizes with one limit, one for tensions. A generic one over what exceeds would be no plainer: its
// contract would need each kind's sizes and limits as functions beside the closure.

// The findings of n rackings: kind 1, tiers from 1 on.
pub fn put_rackings(found: &mut [u32], at: usize, end: u8, xs: &[i32], n: usize) -> usize
    requires { (n ≤ 10) × (n ≤ length xs.now) × (at + n ≤ length found.old) }
    ensures { Put found.old at
        (findings_over end 1 1 (λ i. nat_abs (get_or xs.now (i - 1) (pos 0))) (λ i. racking_limit) n)
        found.new result × (result ≤ at + n) }
{
    let mut next = at;
    for k in 0..n {
        next = put_where(found, next, end, 1, 1 + k, racking_over(xs[k]));
    }
    next
}

// The findings of n sizes with one limit, at the indexes from `first` on: compressions are checked from level 1 on.
pub fn put_over(
    found: &mut [u32],
    at: usize,
    end: u8,
    kind: u8,
    first: usize,
    xs: &[u32],
    limit: u32,
    n: usize,
) -> usize
    requires { (first ≤ 1) × (n ≤ 10) × (first + n ≤ length xs.now) × (at + n ≤ length found.old) }
    ensures { Put found.old at (findings_over end kind first (λ i. get_or xs.now i 0) (λ i. limit) n)
        found.new result × (result ≤ at + n) }
{
    let mut next = at;
    for k in 0..n {
        let i = first + k;
        next = put_where(found, next, end, kind, i, limit < xs[i]);
    }
    next
}

// The findings of m lashes whose tension exceeds their own safe load: kind 5.
pub fn put_pulls(
    found: &mut [u32],
    at: usize,
    end: u8,
    lashes: [Lash; 8],
    xs: &[u32],
    m: usize,
) -> usize
    requires { (m ≤ 8) × (m ≤ length xs.now) × (at + m ≤ length found.old) }
    ensures { Put found.old at (findings_over end 5 0 (λ j. get_or xs.now j 0) (lash_limit lashes) m)
        found.new result × (result ≤ at + m) }
{
    let mut next = at;
    for j in 0..m {
        let l = lashes[j];
        let limit = safe_load(l.material, l.breakingLoad);
        next = put_where(found, next, end, 5, j, limit < xs[j]);
    }
    next
}
