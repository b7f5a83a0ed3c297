// The springs of the tiers at both ends, by how each box stands.

#![tactic(auto)]

ghost use Rattle.std.specs.Prelude.{cond, ◌≡◌, ◌≤◌, take, replicate};
ghost use Rattle.sheet.specs.Ends.{door, closed};
ghost use Rattle.sheet.specs.Layout.{turned};
ghost use Rattle.statics.specs.Inner.Computed.{springs_of};

use sheet::Tier;
use statics::TierSprings;

// K of a box at its door end and at its closed end, N/mm (CR Table 2-4).
pub const DOOR_SPRING: u64 = 3730;

pub const CLOSED_SPRING: u64 = 15690;

fn spring_of(t: Tier, own: u64, other: u64) -> u64
    ensures { result ≡ cond (turned t) other own }
{
    if sheet::turned(t) {
        return other;
    }
    own
}

// The springs of n tiers at both ends: an end's own, and the other end's where a box stands turned. Behind the count they are the end's
// own.
pub fn springs_of(n: usize, tiers: [Tier; 10], springs: &mut TierSprings)
    requires { (n ≤ 10) × (springs.old.door ≡ replicate 10 3730) × (springs.old.closed ≡ replicate 10 15690) }
    ensures { (springs.new.door ≡ springs_of door (take n tiers)) × (springs.new.closed ≡ springs_of closed (take n tiers)) }
{
    for i in 0..n {
        let t = tiers[i];
        springs.door[i] = spring_of(t, DOOR_SPRING, CLOSED_SPRING);
        springs.closed[i] = spring_of(t, CLOSED_SPRING, DOOR_SPRING);
    }
}
