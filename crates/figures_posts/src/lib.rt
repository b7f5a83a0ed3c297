// A tier's racking and the forces on the posts of one level. Scales are those of statics/specs/inner/WholeNumbers.

#![tactic(auto)]

ghost use Rattle.std.specs.Prelude.{◌≡◌, ◌+◌, ◌*◌, ◌/◌, ◌≤◌, ◌^◌, pos, nat_abs, neg_ℤ, ◌+ℤ◌, ◌-ℤ◌, ◌*ℤ◌};
ghost use Rattle.std.specs.Int.Signed.{quot_z, shr_z};
ghost use Rattle.arith.specs.Inner.Rounding.{rounded_up_z};
ghost use Rattle.arith.specs.Inner.Sizes.{Small};
ghost use Rattle.springs.specs.Equations.{closed_spring};
ghost use Rattle.statics.specs.Posts.{post_spacing};
ghost use Rattle.statics.specs.Inner.WholeNumbers.{racking_figure, post_figure, not_below};
ghost use Rattle.figures_posts.specs.Inner.Posts.{outward_of, greater_of, lesser_of, lee_of, windward_of, word};

use statics::PostParts;

// What a racking and a post sum may lack: 0.06 N and 3.41 N.
const RACKING_PAD: i64 = 15729;

const POST_PAD: i64 = 893912;

// Post spacing, mm (CR Table 2-2).
const POST_SPACING: i64 = 2259;

// The racking of a tier of spring k, from the shifts of its upper and its lower level, rounded down.
pub fn racking_part(k: u64, upper: u64, lower: u64) -> i64
    requires { (k ≤ closed_spring) × (upper ≤ 2 ^ 40) × (lower ≤ 2 ^ 40) }
    ensures { (result ≡ shr_z (pos (k * upper) -ℤ pos (k * lower)) 1024) × Small (2 ^ 45) result }
{
    ((k * upper) as i64 - (k * lower) as i64) >> 10
}

fn negative(x: i64) -> i64
    requires { Small (7 * 2 ^ 60) x }
    ensures { result ≡ neg_ℤ x }
{
    -x
}

// A force in 2^-18 N, in N upwards: a newton less one step is added, then a shift rounds down. It takes fewer steps than a division.
fn newtons_up(m: i64) -> i64
    requires { Small (7 * 2 ^ 60) m }
    ensures { (result ≡ rounded_up_z m (2 ^ 18)) × Small (nat_abs m / 2 ^ 18 + 1) result }
{
    (m + 262143) >> 18
}

// What pads a racking, and rounds it away from zero once a shift rounds it down.
fn outward(part: i64) -> i64
    ensures { (result ≡ outward_of part) × Small (2 ^ 19) result }
{
    if part < 0 {
        return 0 - RACKING_PAD;
    }
    RACKING_PAD + 262143
}

// The figure of a racking: its padded size, in N upwards, with the sign kept.
pub fn racking_figure(part: i64) -> i32
    requires { Small (2 ^ 45) part }
    ensures { result ≡ racking_figure part }
{
    ((part + outward(part)) >> 18) as i32
}

// A signed number, cut off at 0.
fn not_below(sum: i64) -> u64
    ensures { result ≡ not_below sum }
{
    sum.max(0) as u64
}

fn greater(x: i64, y: i64) -> i64
    ensures { result ≡ greater_of x y }
{
    x.max(y)
}

fn lesser(x: i64, y: i64) -> i64
    ensures { result ≡ lesser_of x y }
{
    x.min(y)
}

// The compression of the post that is pressed more, padded, in N upwards: x and y are the sums of the two posts but for the weight, and
// one of them is not below 0, so that there is nothing to cut off.
fn pressed_figure(weight: u64, x: i64, y: i64) -> u64
    requires { (weight ≤ 2 ^ 40) × Small (5 * 2 ^ 60) x × Small (5 * 2 ^ 60) y × (greater_of x y ≡ pos (nat_abs (greater_of x y))) }
    ensures { result ≡ post_figure (pos weight +ℤ x) (pos weight +ℤ y) }
{
    newtons_up(greater(x, y) + (weight as i64) + POST_PAD) as u64
}

// The tension of the post that is pressed less, cut off at 0.
fn lifted_figure(weight: u64, x: i64, y: i64) -> u64
    requires { (weight ≤ 2 ^ 40) × Small (5 * 2 ^ 60) x × Small (5 * 2 ^ 60) y }
    ensures { result ≡ post_figure (neg_ℤ (pos weight +ℤ x)) (neg_ℤ (pos weight +ℤ y)) }
{
    not_below(newtons_up(POST_PAD - (weight as i64) - lesser(x, y)))
}

// A figure as a word of four bytes. The remainder changes no figure that a taken sheet leads to: it keeps the cast in range, so that no
// bound on the figure need be handed down to here.
fn word_of(figure: u64) -> u32
    ensures { result ≡ word figure }
{
    (figure % 4294967296) as u32
}

// The sums of the two posts of a level but for the weight above: what the moment adds, and the vertical parts.
#[derive(Clone, Copy)]
struct PostSums {
    lee: i64,
    windward: i64,
}

// The moment presses the lee post, and lifts the windward one.
fn post_sums(couple: i64, parts: PostParts) -> PostSums
    requires { Small (2 ^ 50) couple × (parts.lee ≤ 2 ^ 62) × (parts.windward ≤ 2 ^ 62) }
    ensures lee_value { (result.lee ≡ couple +ℤ pos parts.lee) × Small (5 * 2 ^ 60) result.lee }
    ensures windward_value { (result.windward ≡ neg_ℤ couple +ℤ pos parts.windward) × Small (5 * 2 ^ 60) result.windward }
{
    PostSums {
        lee: couple + (parts.lee as i64),
        windward: negative(couple) + (parts.windward as i64),
    }
}

// Compression at a level, from half the weight above it, the moment over the post spacing, and the vertical parts on the posts. The moment
// presses one of them.
pub fn compression_of(weight: u64, couple: i64, parts: PostParts) -> u32
    requires { (weight ≤ 2 ^ 40) × Small (2 ^ 50) couple × (parts.lee ≤ 2 ^ 62) × (parts.windward ≤ 2 ^ 62) }
    ensures { result ≡ word (post_figure (lee_of weight couple parts) (windward_of weight couple parts)) }
{
    let sums = post_sums(couple, parts);
    word_of(pressed_figure(weight, sums.lee, sums.windward))
}

// Tension, from the same.
pub fn tension_of(weight: u64, couple: i64, parts: PostParts) -> u32
    requires { (weight ≤ 2 ^ 40) × Small (2 ^ 50) couple × (parts.lee ≤ 2 ^ 62) × (parts.windward ≤ 2 ^ 62) }
    ensures { result ≡ word (post_figure (neg_ℤ (lee_of weight couple parts)) (neg_ℤ (windward_of weight couple parts))) }
{
    let sums = post_sums(couple, parts);
    word_of(lifted_figure(weight, sums.lee, sums.windward))
}

// The moment at the level under a tier: the tier's own, and that at the level over it.
pub fn moment_under(above: i64, part: i64, height: u16) -> i64
    requires { Small (2 ^ 60) above × Small (2 ^ 45) part × (height ≤ 2896) }
    ensures { (result ≡ pos height *ℤ part +ℤ above) × Small (2 ^ 61) result }
{
    (height as i64) * part + above
}

// A moment over the post spacing.
pub fn couple_of(moment: i64) -> i64
    requires { Small (2 ^ 61) moment }
    ensures { (result ≡ quot_z moment (pos post_spacing)) × Small (2 ^ 50) result }
{
    moment / POST_SPACING
}
