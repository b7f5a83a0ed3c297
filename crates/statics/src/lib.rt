// What is reported of a stack. Its exact forces are in specs/; proofs/ shows that figures computed in whole numbers report them.

#![tactic(auto)]

// The figures of one end: racking per tier, compression per level from 0, tension per level from 0, and each lash's tension,
// athwart and vertical part, all in N.
#[derive(Clone, Copy)]
pub struct EndFigures {
    pub racking: [i32; 10],
    pub compression: [u64; 11],
    pub tension: [u64; 10],
    pub pull: [u64; 8],
    pub athwart: [u64; 8],
    pub vertical: [u64; 8],
}

#[derive(Clone, Copy)]
pub struct Figures {
    pub door: EndFigures,
    pub closed: EndFigures,
}

// The figures of one end as they are worked out, in N: racking per tier; compression per level from 0, then tension per level from 0; of
// the lashes the tensions, then the athwart parts, then the vertical parts. They are lent, so that no call copies them.
#[derive(Clone, Copy)]
pub struct EndArrays {
    pub racking: [i32; 10],
    pub levels: [u32; 21],
    pub forces: [u32; 24],
}

impl EndArrays {
    pub const ZEROS: EndArrays = EndArrays {
        racking: [0; 10],
        levels: [0; 21],
        forces: [0; 24],
    };
}

#[derive(Clone, Copy)]
pub struct StackArrays {
    pub door: EndArrays,
    pub closed: EndArrays,
}

// What the tiers have at both ends alike: their heights, in mm; the loads on the levels over them; and half of the weight above levels
// 0 to 10 with A_Vmax, then with A_Vmin.
#[derive(Clone, Copy)]
pub struct TierMeasures {
    pub heights: [u16; 10],
    pub loads: [u64; 10],
    pub weights: [u64; 22],
}

impl TierMeasures {
    pub const ZEROS: TierMeasures = TierMeasures {
        heights: [0; 10],
        loads: [0; 10],
        weights: [0; 22],
    };
}

// Springs of the tiers at the door end and at the closed end, N/mm.
#[derive(Clone, Copy)]
pub struct TierSprings {
    pub door: [u64; 10],
    pub closed: [u64; 10],
}

// The lengths and stiffnesses of lashes, and the sums of the stiffnesses by level.
#[derive(Clone, Copy)]
pub struct LashMeasures {
    pub lengths: [u64; 8],
    pub stiffnesses: [u64; 8],
    pub levels: [u64; 10],
}

impl LashMeasures {
    pub const ZEROS: LashMeasures = LashMeasures {
        lengths: [0; 8],
        stiffnesses: [0; 8],
        levels: [0; 10],
    };
}

// What the loads go by: the share of F that a tier's own top takes, in twentieths, and the factor on A_T, in thousandths.
#[derive(Clone, Copy)]
pub struct LoadRule {
    pub share: u64,
    pub factor: u64,
}

// Vertical parts of lashes on the two posts.
#[derive(Clone, Copy)]
pub struct PostParts {
    pub lee: u64,
    pub windward: u64,
}

// 1 N in 2^-18 N, the scale of lash parts, rackings and post sums.
pub const NEWTON: u64 = 262144;
