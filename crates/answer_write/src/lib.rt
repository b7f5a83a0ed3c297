// Document 01, "The answer sheet": the bytes of its sections, an end's and the findings'.

#![tactic(auto)]

ghost use mathlib.Core.List.{flat_map};
ghost use Rattle.std.specs.Prelude.{◌≡◌, ◌+◌, ◌*◌, ◌≤◌, pos, length, get_or, take};
ghost use Rattle.std.proofs.lemmas.List.Edits.{sets};
ghost use Rattle.arith.specs.Bytes.{bytes4, twos};
ghost use Rattle.statics.specs.Inner.InArrays.{end_in};
ghost use Rattle.arith.specs.Lists.{counted};
ghost use Rattle.answer_put.specs.Inner.Puts.{word_bytes};
ghost use Rattle.answer_write.specs.Inner.Encoding.{Wrote, lash_bytes, end_bytes_of};

use arith::bytes::{write_signed, write1, write4};
use statics::EndArrays;

// Three sections, each a count and its entries. A generic one over what writes an entry would be no plainer: its contract would need the
// entry's bytes as a function beside the closure.

// A count n and n rackings; the place behind them.
fn write_rackings(answer: &mut [u8], at: usize, xs: &[i32], n: usize) -> usize
    requires { (n ≤ 10) × (n ≤ length xs.now) × (at + 1 + 4 * n ≤ length answer.old) }
    ensures { Wrote answer.old at (counted n (λ i. bytes4 (twos (get_or xs.now i (pos 0)))))
        answer.new result × (result ≡ at + 1 + 4 * n) }
{
    write1(answer, at, n as u64);
    let mut next = at + 1;
    for i in 0..n {
        write_signed(answer, next, xs[i]);
        next += 4;
    }
    next
}

fn write_figure(answer: &mut [u8], at: usize, x: u32)
    requires { at + 4 ≤ length answer.old }
    ensures { answer.new ≡ sets answer.old at (bytes4 x) }
{
    write4(answer, at, x as u64);
}

// A count n and n figures.
fn write_figures(answer: &mut [u8], at: usize, xs: &[u32], n: usize) -> usize
    requires { (n ≤ 11) × (n ≤ length xs.now) × (at + 1 + 4 * n ≤ length answer.old) }
    ensures { Wrote answer.old at (counted n (λ i. bytes4 (get_or xs.now i 0)))
        answer.new result × (result ≡ at + 1 + 4 * n) }
{
    write1(answer, at, n as u64);
    let mut next = at + 1;
    for i in 0..n {
        write_figure(answer, next, xs[i]);
        next += 4;
    }
    next
}

// The three forces of a lash.
fn write_lash(answer: &mut [u8], at: usize, pull: u32, athwart: u32, vertical: u32) -> usize
    requires { at + 12 ≤ length answer.old }
    ensures { Wrote answer.old at (lash_bytes pull athwart vertical) answer.new result × (result ≡ at + 12) }
{
    write_figure(answer, at, pull);
    write_figure(answer, at + 4, athwart);
    write_figure(answer, at + 8, vertical);
    at + 12
}

// A count m and the three forces of each of m lashes.
fn write_lashes<'a>(
    answer: &mut [u8],
    at: usize,
    pull: &'a [u32],
    athwart: &'a [u32],
    vertical: &'a [u32],
    m: usize,
) -> usize
    requires { (m ≤ 8) × (m ≤ length pull.now) × (m ≤ length athwart.now) × (m ≤ length vertical.now)
        × (at + 1 + 12 * m ≤ length answer.old) }
    ensures { Wrote answer.old at
        (counted m (λ j. lash_bytes (get_or pull.now j 0) (get_or athwart.now j 0) (get_or vertical.now j 0)))
        answer.new result × (result ≡ at + 1 + 12 * m) }
{
    write1(answer, at, m as u64);
    let mut next = at + 1;
    for j in 0..m {
        next = write_lash(answer, next, pull[j], athwart[j], vertical[j]);
    }
    next
}

// An end of n tiers and m lashes.
pub fn write_end(answer: &mut [u8], at: usize, n: usize, m: usize, figures: &EndArrays) -> usize
    requires { (n ≤ 10) × (m ≤ 8) × (at + 8 + 12 * n + 12 * m ≤ length answer.old) }
    ensures { Wrote answer.old at (end_bytes_of n m (end_in figures.now)) answer.new result
        × (result ≡ at + 8 + 12 * n + 12 * m) }
{
    let second = 11;
    let compression = &figures.levels[..second];
    let tension = &figures.levels[second..];
    let middle = 8;
    let last = 16;
    let pull = &figures.forces[..middle];
    let athwart = &figures.forces[middle..last];
    let vertical = &figures.forces[last..];
    let p = write_rackings(answer, at, &figures.racking, n);
    let q = write_figures(answer, p, compression, n + 1);
    let s = write_figures(answer, q, tension, n);
    write_lashes(answer, s, pull, athwart, vertical, m)
}

// The three bytes of a finding in one word.
fn write_finding(answer: &mut [u8], at: usize, word: u32) -> usize
    requires { at + 3 ≤ length answer.old }
    ensures { Wrote answer.old at (word_bytes word) answer.new result × (result ≡ at + 3) }
{
    answer[at] = (word % 256) as u8;
    answer[at + 1] = (word / 256 % 256) as u8;
    answer[at + 2] = (word / 65536 % 256) as u8;
    at + 3
}

// The first n findings, a word each, into the answer at `at`; the place behind them.
pub fn write_found(answer: &mut [u8], at: usize, found: &[u32], n: usize) -> usize
    requires { (n ≤ 108) × (n ≤ length found.now) × (at + 3 * n ≤ length answer.old) }
    ensures { Wrote answer.old at (flat_map word_bytes (take n found.now)) answer.new result
        × (result ≡ at + 3 * n) }
{
    let mut next = at;
    for i in 0..n {
        next = write_finding(answer, next, found[i]);
    }
    next
}
