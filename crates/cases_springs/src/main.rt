// Finds the shifts of the chains of standard input by elimination alone and by the solver, and tells whether they lie within bounds. No
// stack sheet is known whose candidate fails the solver's test, so that elimination is run here.
//
// A chain is a byte, its count of tiers n, then five times n numbers of 8 bytes, least byte first: the springs in N/mm; of the levels over
// the tiers the lashes' stiffness in 2^-22 N/mm and the load in 2^-28 N; the least and the most that their shifts may be, in 2^-28 mm.
// For each a line: `eliminated` and `solved`, each with `inside` or `outside`, or `not solvable`.

#![tactic(auto)]

ghost use Rattle.std.specs.Prelude.{true, ◌≡◌, ◌+◌, ◌*◌, ◌≤◌, ◌<◌, length, IfSome, OnSome};
ghost use Rattle.cases_springs.specs.Inner.Within.{Within};

use arith::bytes;
use case_io::Output;
use springs::SpringChain;
use springs_eliminate::eliminate;
use springs_solve::solve;
use std::io::Result;

// Its count of tiers n, and five times n numbers.
#[derive(Drop)]
struct Chain<'a> {
    n: usize,
    numbers: &'a [u8],
}

fn main() {
    let mut buffer = [0u8; 65536];
    let n = case_io::read(&mut buffer);
    let _ = run_all(&Output, &buffer[..n]);
}

// One chain after another, to the end of the input or to bytes that are none.
fn run_all(rt: &impl Print, input: &[u8]) -> Result<()> {
    let mut rest = input;
    while !rest.is_empty() {
        let Some(chain) = next(&mut rest) else {
            return println!(rt; "bad input");
        };
        run(rt, &chain)?;
    }
    Ok(())
}

// Takes a chain from the front of the input, if all of it is there and it has at most ten tiers.
fn next<'a>(input: &mut &'a [u8]) -> Option<Chain<'a>>
    ensures chain { IfSome result (λ c. (c.n ≤ 10) × (length c.numbers.now ≡ 40 * c.n)) }
    ensures shorter { OnSome result (length input.new.now < length input.old.now) }
{
    let head = input.split_off(..1)?;
    let n = bytes::read1(head, 0) as usize;
    if n > 10 {
        return None;
    }
    let numbers = input.split_off(..40 * n)?;
    Some(Chain { n, numbers })
}

// Finds the shifts of a chain, if its springs, its lashes and its loads are within the solver's limits, and tells what came out.
fn run(rt: &impl Print, chain: &Chain<'_>) -> Result<()>
    requires { (chain.now.n ≤ 10) × (length chain.now.numbers.now ≡ 40 * chain.now.n) }
{
    let n = chain.n;
    let numbers = chain.numbers;
    let mut k = [0u64; 10];
    let mut kappa = [0u64; 10];
    let mut omega = [0u64; 10];
    let springs = fill(numbers, 0, n, 3730, 15690, &mut k);
    let held = fill(numbers, 8 * n, n, 0, 2600468480000, &mut kappa);
    let loaded = fill(numbers, 16 * n, n, 0, 70368744177664, &mut omega);
    if springs && held && loaded {
        both_ways(rt, numbers, 24 * n, n, &k, &kappa, &omega)
    } else {
        println!(rt; "not solvable")
    }
}

// Tells whether the shifts are within the bounds at `at`, by elimination alone and by the solver.
fn both_ways(
    rt: &impl Print,
    input: &[u8],
    at: usize,
    n: usize,
    k: &[u64],
    kappa: &[u64],
    omega: &[u64],
) -> Result<()>
    requires n_bound { (n ≤ 10) × (at + 16 * n ≤ length input.now) }
    requires k_len { (length k.now ≡ 10) × (length kappa.now ≡ 10) × (length omega.now ≡ 10) }
    requires within { Within n 3730 15690 k.now × Within n 0 2600468480000 kappa.now × Within n 0 70368744177664 omega.now }
{
    let chain = SpringChain { n, k, kappa, omega };
    let mut d = [0u64; 11];
    eliminate(chain, &mut d);
    let eliminated = place(inside(input, at, n, &d));
    let e = solve(chain);
    let solved = place(inside(input, at, n, &e));
    println!(rt; "eliminated {eliminated}, solved {solved}")
}

fn place(within: bool) -> &'static str {
    if within { "inside" } else { "outside" }
}

fn number(input: &[u8], at: usize) -> u64
    requires { at + 8 ≤ length input.now }
{
    bytes::read4(input, at) + 4294967296 * bytes::read4(input, at + 4)
}

// n numbers put into an array; answers whether each is at least `least` and at most `most`.
fn fill(input: &[u8], at: usize, n: usize, least: u64, most: u64, into: &mut [u64]) -> bool
    requires { (n ≤ 10) × (at + 8 * n ≤ length input.now) × (length into.old ≡ 10) }
    ensures { result ≡ true → Within n least most into.new }
{
    for i in 0..n {
        let x = number(input, at + 8 * i);
        if x < least || most < x {
            return false;
        }
        into[i] = x;
    }
    true
}

// Whether the shifts of levels 1 to n are at least the n numbers at `at` and at most the n behind them.
fn inside(input: &[u8], at: usize, n: usize, d: &[u64]) -> bool
    requires { (n ≤ 10) × (at + 16 * n ≤ length input.now) × (n < length d.now) }
{
    for i in 0..n {
        let shift = d[i + 1];
        if shift < number(input, at + 8 * i) || number(input, at + 8 * (n + i)) < shift {
            return false;
        }
    }
    true
}
