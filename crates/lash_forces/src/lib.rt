// One lash: its hook, its stiffness, and its forces at a shift of its hook. Scales: see statics/specs/inner/WholeNumbers.

#![tactic(auto)]

ghost use Rattle.std.specs.Prelude.{◌≡◌, ◌+◌, ◌*◌, ◌/◌, ◌<◌, ◌≤◌, ◌^◌};
ghost use Rattle.arith.specs.Inner.Rounding.{rounded_up};
ghost use Rattle.sheet.specs.Lashings.{level_of};
ghost use Rattle.sheet.specs.Inner.Limits.{LashLimits};
ghost use Rattle.statics.specs.Lashes.{lash_length};
ghost use Rattle.statics.specs.Inner.WholeNumbers.{inverse, along, along_pad, figure_along, lash_pad, stiffness_of, lee_part, windward_part};
ghost use Rattle.lash_forces.specs.Inner.OneLash.{carried_lash, vertical_from, corner_of};

use arith::rounding::{ceil_div, split_product};
use lash_stiffness::stiffness;
use sheet::{Lash, Lashing};
use statics::{NEWTON, PostParts};

// What one lash's athwart part may lack: 0.051 N.
const LASH_PAD: u64 = 13365;

// What a number × a side / LY may lack, 0.081 N, and half of that.
const ALONG_PAD: u64 = 21176;

const ALONG_MIDDLE: u64 = 10588;

// The level that a lash is hooked at.
pub fn hook_level(l: Lash) -> usize
    requires { LashLimits 10 l }
    ensures { (result ≡ level_of l) × (1 ≤ result) × (result ≤ 10) }
{
    (l.tier - l.hook) as usize
}

// The corner that a lash is hooked to, counted from the deck up: 2 i - 1 is the bottom corner of tier i, 2 i its top corner.
pub fn hook_corner(l: Lash) -> usize
    requires { LashLimits 10 l }
    ensures { (result ≡ corner_of l) × (result ≤ 20) }
{
    (2 * l.tier - l.hook) as usize
}

// The athwart stiffness of a lash of this length.
pub fn stiffness_of(l: Lash, long: u64) -> u64
    requires { LashLimits 10 l × (long ≡ lash_length l) }
    ensures { result ≡ stiffness_of l }
{
    let ly = l.ly as u64;
    stiffness((l.modulus as u64) * (l.area as u64), ly * ly, long)
}

// The athwart part of a lash at a shift of its hook.
pub fn athwart_part(stiffness: u64, shift: u64) -> u64
    requires { (stiffness ≤ 155000 * 2 ^ 22) × (shift ≤ 2 ^ 40) }
    ensures { (result ≡ stiffness * shift / 2 ^ 32) × (result ≤ 2 ^ 48) }
{
    split_product(stiffness, shift, 4194304, 1024)
}

// 2^46 / LY, the one division that a lash's forces take.
fn inverse_of(ly: u64) -> u64
    requires { 500 ≤ ly }
    ensures { (result ≡ inverse ly) × (result ≤ 140737488356) }
{
    70368744177664 / ly
}

// A number × a side / LY, from 2^46 / LY; what it may lack is in statics/proofs/Along. The remainder by 2^32 changes no number that a
// taken sheet leads to: it keeps the product in range, so that no bound on the number need be handed down to here.
fn along_side(x: u64, side: u64, inv: u64) -> u64
    requires { (side ≤ 22913) × (inv ≤ 140737488356) }
    ensures { (result ≡ along x side inv) × (result ≤ 2 ^ 46) }
{
    x / 256 % 4294967296 * (side * inv / 1048576) / 262144
}

// A padded athwart part × a side / LY, in N upwards.
fn figure_along(padded: u64, side: u64, inv: u64) -> u32
    requires { (side ≤ 22913) × (inv ≤ 140737488356) }
    ensures { result ≡ rounded_up (along padded side inv + along_pad) (2 ^ 18) }
{
    ceil_div(along_side(padded, side, inv) + ALONG_PAD, NEWTON) as u32
}

// The figures of one lash.
#[derive(Clone, Copy)]
pub struct LashForces {
    pub tension: u32,
    pub athwart: u32,
    pub vertical: u32,
}

// The figures of a lash of this length, from its athwart part.
pub fn forces_of(l: Lash, long: u64, part: u64) -> LashForces
    requires { LashLimits 10 l × (long ≡ lash_length l) × (part ≤ 2 ^ 48) }
    ensures tension_value { result.tension ≡ figure_along (part + lash_pad) (lash_length l) l.ly }
    ensures athwart_value { result.athwart ≡ rounded_up (part + lash_pad) (2 ^ 18) }
    ensures vertical_value { result.vertical ≡ figure_along (part + lash_pad) l.lz l.ly }
{
    let inv = inverse_of(l.ly as u64);
    let padded = part + LASH_PAD;
    let athwart = ceil_div(padded, NEWTON) as u32;
    LashForces {
        tension: figure_along(padded, long, inv),
        athwart: athwart,
        vertical: figure_along(padded, l.lz as u64, inv),
    }
}

// The vertical part of a lash, from its athwart part. Its 2^46 / LY is that of forces_of, which the compiler sees.
pub fn vertical_part(l: Lash, part: u64) -> u64
    requires { LashLimits 10 l }
    ensures { (result ≡ vertical_from part l) × (result ≤ 2 ^ 54) }
{
    along_side(part, l.lz as u64, inverse_of(l.ly as u64)) + ALONG_MIDDLE
}

// The vertical part of a lash on its post: of a cross lash on the lee post, of a side lash on the windward post.
pub fn on_posts(g: Lashing, part: u64) -> PostParts
    requires { LashLimits 10 (carried_lash g) }
    ensures lee_value { result.lee ≡ lee_part g (vertical_from part (carried_lash g)) }
    ensures windward_value { result.windward ≡ windward_part g (vertical_from part (carried_lash g)) }
{
    match g {
        Lashing::Cross(l) => PostParts {
            lee: vertical_part(l, part),
            windward: 0,
        },
        Lashing::Side(l) => PostParts {
            lee: 0,
            windward: vertical_part(l, part),
        },
    }
}
