// One end of a stack as a chain of springs: the shifts of its levels, in whole numbers. They are found in floats and tested in whole
// numbers; where a level is out of balance under them, they are found by elimination, which takes longer.

#![tactic(auto)]

ghost use Rattle.std.specs.Prelude.{◌≡◌, replicate};
ghost use Rattle.springs.specs.Inner.Promise.{Promised};
ghost use Rattle.springs.specs.Inner.Candidate.{candidate};
ghost use Rattle.springs.specs.Inner.Elimination.{solved};

use springs::SpringChain;
use springs_balance::balanced;
use springs_eliminate::eliminate;
use springs_guess::guess;
use springs_guess_both::guess_both;

// Shifts that are a candidate, kept if they pass the test, else replaced.
fn settle(chain: SpringChain<'_>, d: &mut [u64; 11])
    requires { d.old ≡ candidate chain.n chain.k.now chain.kappa.now chain.omega.now }
    ensures { let c = chain.entry in d.new ≡ solved c.n c.k.now c.kappa.now c.omega.now }
{
    if !balanced(chain, d) {
        eliminate(chain, d);
    }
}

// The shifts of levels 0 to n, in 2^-28 mm. Behind n stand zeros.
pub fn solve(chain: SpringChain<'_>) -> [u64; 11]
    ensures promised { let c = chain.entry in Promised c.n c.k.now c.kappa.now c.omega.now result }
    ensures named { let c = chain.entry in result ≡ solved c.n c.k.now c.kappa.now c.omega.now }
{
    let mut d = [0u64; 11];
    guess(chain, &mut d);
    settle(chain, &mut d);
    d
}

// The shifts of both ends, which have their loads in common: those of the door end put into d, those of the closed end into e. Both arrays
// hold zeros at the call.
pub fn solve_both(
    door: SpringChain<'_>,
    closed: SpringChain<'_>,
    d: &mut [u64; 11],
    e: &mut [u64; 11],
)
    requires in_common { (closed.n ≡ door.n) × (closed.omega.now ≡ door.omega.now) }
    requires d_value { (d.old ≡ replicate 11 0) × (e.old ≡ replicate 11 0) }
    ensures door { let c = door.entry in (d.new ≡ solved c.n c.k.now c.kappa.now c.omega.now)
        × Promised c.n c.k.now c.kappa.now c.omega.now d.new }
    ensures closed { let c = closed.entry in (e.new ≡ solved c.n c.k.now c.kappa.now c.omega.now)
        × Promised c.n c.k.now c.kappa.now c.omega.now e.new }
{
    guess_both(door, closed, d, e);
    settle(door, d);
    settle(closed, e);
}
