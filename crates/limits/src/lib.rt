// Document 01, "Permissible loads", in N.

#![tactic(auto)]

ghost use Rattle.std.specs.Prelude.{cond, ◌≡◌, ◌≤◌};
ghost use Rattle.answer.specs.Limits.{safe_load};
ghost use Rattle.limits.specs.Inner.LowerOf.{lower_of};

// The limits of CR Table 2-3.
#[derive(Clone, Copy)]
pub struct Limits {}

impl Limits {
    pub const RACKING: u32 = 150_000;

    pub const COMPRESSION: u32 = 848_000;

    pub const CORNER_TENSION: u32 = 250_000;

    pub const LASH_VERTICAL: u32 = 300_000;

    pub const LASH_ATHWART: u32 = 150_000;

    pub const SIDE_WALL: u32 = 125_000;
}

// Of the factors 1.67, for higher strength steel, and 2, for all else, the one that does not apply, in hundredths.
fn other_factor(strong: bool) -> u64
    ensures { (result ≡ cond strong 200 167) × (result ≤ 200) }
{
    167 + 33 * (strong as u64)
}

// The safe working load in whole kilonewtons: breaking load / 1.67 for higher strength steel, / 2 for all else (CR Table 3-3). To divide by
// one factor is to multiply by the other and divide by both: a branch on the material would often be predicted wrongly.
pub fn safe_load(material: u8, breaking: u32) -> u32
    ensures { result ≡ safe_load material breaking }
{
    ((breaking as u64) * other_factor(material == 1) / 334000 * 1000) as u32
}

// The limit that a level's tension is checked against, and the kind that names it: a number, since it is a finding's byte in the answer
// (`lower_of` of specs/Inner).
#[derive(Clone, Copy)]
pub struct PullLimit {
    pub kind: u8,
    pub limit: u32,
}

// Corner and lock tension are one pull: the lower of their two limits is named, the corner's if they are equal.
pub fn lower_of(lock: u32) -> PullLimit
    ensures { result ≡ lower_of lock }
{
    if lock < Limits::CORNER_TENSION {
        return PullLimit {
            kind: 4,
            limit: lock,
        };
    }
    PullLimit {
        kind: 3,
        limit: Limits::CORNER_TENSION,
    }
}
