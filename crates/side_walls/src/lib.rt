// Side walls under pitching (document 02, P5): racking of each tier and shift of each level, from whole numbers rounded up once.

#![tactic(auto)]

ghost use Rattle.std.specs.Prelude.{◌≡◌, ℕ, ◌+◌, ◌*◌, ◌<◌, ◌≤◌, ◌^◌, get_or, replicate};
ghost use Rattle.sheet.specs.Fits.{Fits};
ghost use Rattle.statics.specs.Inner.Computed.{share_twentieths};
ghost use Rattle.side_walls.specs.Inner.Units.{Pitched, Pushed, RoundedUp, SideFigured};

use arith::bytes::read2;
use arith::rounding::ceil_div;
use sheet::Sheet;

// Per side wall: racking of each tier in N, and shift of the level over it in thousandths of a millimetre.
#[derive(Clone, Copy)]
pub struct SideFigures {
    pub racking: [u64; 10],
    pub shift: [u64; 10],
}

// A newton of racking and a thousandth of a millimetre of shift, in the units of rackings.
const NEWTON: u64 = 4000000;

const MICROMETRE: u64 = 23160000;

// What a tier pushes with: mass × A_L.
fn push_of(mass: u16, acceleration: u64) -> u64
    requires { (mass ≤ 30480) × (acceleration ≤ 1500) }
    ensures { (result ≡ mass * acceleration) × (result ≤ 30480 * 1500) }
{
    (mass as u64) * acceleration
}

// The racking of a tier: the share of its own push in twentieths, and all of those above.
fn racking_of(share: u64, own: u64, above: u64) -> u64
    requires { (share ≤ 20) × (own ≤ 30480 * 1500) × (above ≤ 9 * (30480 * 1500)) }
    ensures { (result ≡ 981 * (share * own + 20 * above)) × (result ≤ 2 ^ 44) }
{
    981 * (20 * above + share * own)
}

// The rackings of all tiers, from the top down.
fn push_all(t: Sheet, share: u64, pitch: &[u8], units: &mut [u64; 10])
    requires { Fits t × Pitched t.ntiers pitch.now × (share ≡ share_twentieths t.head.rule) × (share ≤ 20)
        × (units.old ≡ replicate 10 0) }
    ensures { Pushed t pitch.now units.new }
{
    let mut above = 0;
    for i in (0..t.ntiers).rev() {
        let tier = t.tiers[i];
        let own = push_of(tier.mass, read2(pitch, 1 + 2 * i));
        units[i] = racking_of(share, own, above);
        above += own;
    }
}

// Each racking and the sum of those up to it, rounded up.
fn round_up(n: usize, units: [u64; 10]) -> SideFigures
    requires { (n ≤ 10) × ((i : ℕ) → i < n → get_or units i 0 ≤ 2 ^ 44) }
    ensures { RoundedUp n units result.racking result.shift }
{
    let mut racking = [0u64; 10];
    let mut shift = [0u64; 10];
    let mut sum = 0;
    for i in 0..n {
        let own = units[i];
        sum += own;
        racking[i] = ceil_div(own, NEWTON);
        shift[i] = ceil_div(sum, MICROMETRE);
    }
    SideFigures { racking, shift }
}

// The figures of a sheet within the limits and a short sheet that goes with it.
pub fn figures_of(t: Sheet, pitch: &[u8]) -> SideFigures
    requires { Fits t × Pitched t.ntiers pitch.now }
    ensures { SideFigured t pitch.now result.racking result.shift }
{
    let head = t.head;
    let share = load_rules::share_of(head.rule);
    let mut units = [0u64; 10];
    push_all(t, share, pitch, &mut units);
    round_up(t.ntiers, units)
}
