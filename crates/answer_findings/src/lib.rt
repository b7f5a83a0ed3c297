// Document 01, "The answer sheet": a finding wherever a reported size exceeds its limit; one for a tension (02, P11).

#![tactic(auto)]

ghost use Rattle.std.specs.Prelude.{◌≡◌, ◌++◌, ◌+◌, ◌*◌, ◌≤◌, length};
ghost use Rattle.statics.specs.Inner.InArrays.{both_in, end_in};
ghost use Rattle.answer.specs.Findings.{accepted};
ghost use Rattle.answer_put.specs.Inner.Puts.{Put};
ghost use Rattle.answer_findings.specs.Inner.Findings.{Sized, PutFindings, tier_findings, lash_findings};

use answer_put::{put_over, put_pulls, put_rackings};
use limits::{Limits, PullLimit, lower_of, safe_load};
use sheet::{Lash, Sheet};
use statics::{EndArrays, StackArrays};

// The findings of an end of n tiers and m lashes.
pub fn put_end(
    found: &mut [u32],
    at: usize,
    end: u8,
    n: usize,
    pull: PullLimit,
    lashes: [Lash; 8],
    m: usize,
    figures: &EndArrays,
) -> usize
    requires { (n ≤ 10) × (m ≤ 8) × (at + 3 * n + 3 * m ≤ length found.old) }
    ensures { Put found.old at
        (tier_findings end n pull (end_in figures.now) ++ lash_findings end lashes m (end_in figures.now))
        found.new result × (result ≤ at + 3 * n + 3 * m) }
{
    let second = 11;
    let compression = &figures.levels[..second];
    let tension = &figures.levels[second..];
    let middle = 8;
    let last = 16;
    let tensions = &figures.forces[..middle];
    let athwart = &figures.forces[middle..last];
    let vertical = &figures.forces[last..];
    let p = put_rackings(found, at, end, &figures.racking, n);
    let q = put_over(found, p, end, 2, 1, compression, Limits::COMPRESSION, n);
    let r = put_over(found, q, end, pull.kind, 0, tension, pull.limit, n);
    let s = put_pulls(found, r, end, lashes, tensions, m);
    let u = put_over(found, s, end, 6, 0, vertical, Limits::LASH_VERTICAL, m);
    put_over(found, u, end, 7, 0, athwart, Limits::LASH_ATHWART, m)
}

// The findings of a stack, a word each: those of the door end, then those of the closed end; their count.
pub fn put_findings(found: &mut [u32], t: Sheet, figures: &StackArrays) -> usize
    requires { Sized t × (108 ≤ length found.old) }
    ensures { PutFindings t (both_in figures.now) found.old found.new result }
{
    let n = t.ntiers;
    let head = t.head;
    let pull = lower_of(safe_load(head.lockMaterial, head.lockBreakingLoad));
    let door = t.door;
    let closed = t.closed;
    let p = put_end(found, 0, 0, n, pull, door, t.ndoor, &figures.door);
    let q = put_end(found, p, 1, n, pull, closed, t.nclosed, &figures.closed);
    q
}

// Whether a stack is accepted: asked of a sheet and its figures, with no answer written.
pub fn accepted(t: Sheet, figures: &StackArrays) -> bool
    requires { Sized t }
    ensures { result ≡ accepted t (both_in figures.now) }
{
    let mut found = [0u32; 108];
    let count = put_findings(&mut found, t, figures);
    count == 0
}
