// One end of a stack as a chain of springs: its equations and what holds of their solution are in specs/, proved in proofs/, and so is the
// promise of a solver in whole numbers.

#![tactic(auto)]

ghost use Rattle.std.specs.Prelude.{◌≤◌, length};
ghost use Rattle.springs.specs.Inner.Promise.{Solvable};

// One end's chain of springs, lent: of n tiers, k the spring of each, in N/mm; of the level over each, kappa the stiffness of its lashes,
// in 2^-22 N/mm, and omega its load, in 2^-28 N.
#[derive(Clone, Copy)]
pub struct SpringChain<'a> {
    pub n: usize,
    pub k: &'a [u64],
    pub kappa: &'a [u64],
    pub omega: &'a [u64],
    ghost solvable: { Solvable n k.now kappa.now omega.now },
    ghost there: { (n ≤ length k.now) × (n ≤ length kappa.now) × (n ≤ length omega.now) },
}

// A chain of springs in floats, from the top down to a level: what the level under it takes over (s, p, y), and the shift of the level,
// which is a and w of the shift under it.
#[derive(Clone, Copy)]
pub struct UpperChain {
    pub s: f64,
    pub p: f64,
    pub y: f64,
    pub a: f64,
    pub w: f64,
}
