// A lash's athwart stiffness in 2^-22 N/mm: modulus × area, here its load, times LY², its side, over the cube of its length. A quotient of
// floats is tested in whole numbers; where it is not the right one, divisions find it, which take longer.

#![tactic(auto)]

ghost use Rattle.std.specs.Prelude.{◌≡◌, true, ◌*◌, ◌/◌, ◌<◌, ◌≤◌, ◌^◌};

use arith::rounding::{scaled, scaled_twice};
use floats::{below, float_of};

// By divisions. A lash under 16,384 mm takes a division less.
fn over_cube(force: u64, cube: u64) -> u64
    requires { (0 < cube) × (cube ≤ 22913 * 22913 * 22913) × (force / cube ≤ 400000) }
    ensures { result ≡ force * 2 ^ 22 / cube }
{
    if cube < 4398046511104 {
        return scaled(force, 4194304, cube);
    }
    scaled_twice(force, 1048576, 4, cube)
}

// Whether q is force × 2^22 over the cube, rounded down. Neither product fits 64 bits, so the remainder is found by parts: q lengths over
// 2^22 and what that leaves, each times the square.
fn is_quotient(force: u64, q: u64, long: u64, square: u64, cube: u64) -> bool
    requires { (q < 1099511627776) × (long ≤ 22913) × (square ≤ 22913 * 22913) × (cube ≡ square * long) }
    ensures { result ≡ true → q ≡ force * 2 ^ 22 / cube }
{
    let p = q * long;
    let taken = p / 4194304 * square;
    if force < taken {
        return false;
    }
    let left = force - taken;
    if 1099511627776 <= left {
        return false;
    }
    let over = left * 4194304;
    let more = p % 4194304 * square;
    if over < more {
        return false;
    }
    if cube <= over - more {
        return false;
    }
    true
}

// The quotient in floats, of nearly all lashes the right one; in any case a number below 2^40. The nearest to a half less is the quotient
// rounded down, but for an odd quotient without remainder, or one within rounding of a whole number.
fn candidate(load: u64, side: u64, cube: u64) -> u64
    requires { (load ≤ 200000 * 1000) × (side ≤ 10000 * 10000) × (cube ≤ 22913 * 22913 * 22913) }
    ensures { result < 1099511627776 }
{
    let force = float_of(load) * float_of(side * 4194304);
    below(force / float_of(cube)) % 1099511627776
}

// The stiffness of a lash of this load, side and length.
pub fn stiffness(load: u64, side: u64, long: u64) -> u64
    requires load_bound { (load ≤ 200000 * 1000) × (side ≤ 10000 * 10000) × (long ≤ 22913) }
    requires long_nonzero { (0 < long * long * long) × (load * side / (long * long * long) ≤ 400000) }
    ensures { result ≡ load * side * 2 ^ 22 / (long * long * long) }
{
    let force = load * side;
    let square = long * long;
    let cube = square * long;
    let q = candidate(load, side, cube);
    if is_quotient(force, q, long, square, cube) {
        return q;
    }
    over_cube(force, cube)
}
