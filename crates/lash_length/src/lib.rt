// The length of a lash, by a search that squares one length.

#![tactic(auto)]

ghost use Rattle.std.specs.Prelude.{cond, ◌≡◌, ◌+◌, ◌*◌, ◌-◌, ◌<◌, ◌≤◌, max, leb, length};
ghost use Rattle.sheet.specs.Inner.Limits.{LashLimits};
ghost use Rattle.statics.specs.Lashes.{squares, lash_length};
ghost use Rattle.lash_length.specs.Trials.{longest, others, nearer, guess, start, trials, found};

use sheet::Lash;

// A lash's sides: the sum of their squares, the longest of them and the sum of the other two.
#[derive(Clone, Copy)]
struct Sides {
    squares: u32,
    longest: u32,
    others: u32,
}

// The search as far as it has come: a length that is enough, and how many trials were squared.
#[derive(Clone, Copy)]
pub struct Progress {
    pub length: u64,
    pub squared: u64,
}

fn longer(x: u32, y: u32) -> u32
    ensures { result ≡ max x y }
{
    x.max(y)
}

// A side's square, which is no trial, with the bound that the sum wants.
fn square(x: u32) -> u32
    requires { x ≤ 20000 }
    ensures { (result ≡ x * x) × (result ≤ 400000000) }
{
    x * x
}

fn sides_of(l: Lash) -> Sides
    requires { LashLimits 10 l }
    ensures squares_value { (result.squares ≡ squares l) × (result.longest ≡ longest l) × (result.others ≡ others l) }
    ensures squares_bound { (result.squares ≤ 1200000000) × (0 < result.longest) × (result.longest ≤ 20000) × (result.others ≤ 40000) }
{
    let lx = l.lx as u32;
    let ly = l.ly as u32;
    let lz = l.lz as u32;
    let longest = longer(lx, longer(ly, lz));
    Sides {
        squares: square(lx) + square(ly) + square(lz),
        longest: longest,
        others: lx + ly + lz - longest,
    }
}

// Newton's step, rounded up. In 32 bits: a division in 64 takes longer, or first a test whether 32 are enough.
fn step(s: u32, x: u32) -> u32
    requires { (s ≤ 1200000000) × (0 < x) × (x ≤ 2000000000) }
    ensures { (result ≡ nearer s x) × (0 < result) × (result ≤ 2000000000) }
{
    (x + s / x) / 2 + 1
}

// Where the search starts. Unlike a search by halving, Newton's steps have no branch to guess. The first is from a number that takes no
// division, near enough to the root that after two steps one trial is left.
fn start_of(g: Sides) -> u32
    requires { (g.squares ≤ 1200000000) × (0 < g.longest) × (g.longest ≤ 20000) × (g.others ≤ 40000) }
    ensures value { result ≡ nearer g.squares (nearer g.squares (guess g.longest g.others)) }
    ensures upper_bound { result ≤ 2000000000 }
{
    step(g.squares, step(g.squares, g.longest + g.others * 5 / 16))
}

// One trial, the length below the one that is known to be enough. It is counted here, where it is squared; none may be below the
// longest side, nor more than 16 be made.
fn tried(g: Sides, at: Progress) -> Progress
    requires { (g.longest < at.length) × (at.length ≤ 2000000000) × (at.squared < 16) }
    ensures length_value { result.length ≡ cond (leb g.squares ((at.length - 1) * (at.length - 1))) (at.length - 1) at.length }
    ensures squared_value { result.squared ≡ at.squared + 1 }
{
    let trial = at.length - 1;
    let squares = g.squares as u64;
    Progress {
        length: at.length - ((squares <= trial * trial) as u64),
        squared: at.squared + 1,
    }
}

// The search for L of a lash: its trials are `trials`.
pub fn search(l: Lash) -> Progress
    requires { LashLimits 10 l }
    ensures length_value { (result.length ≡ found (squares l) (start l) (trials l)) × (result.squared ≡ length (trials l)) }
    ensures length_value_2 { result.length ≡ lash_length l }
{
    let g = sides_of(l);
    let enough = start_of(g) as u64;
    tried(
        g,
        Progress {
            length: enough,
            squared: 0,
        },
    )
}
