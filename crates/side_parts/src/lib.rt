// Parts of the call for side walls (document 02, P5): the test of the short sheet, the verdict, and the tiers of a side answer.

#![tactic(auto)]

ghost use Rattle.std.specs.Prelude.{◌≡◌, cond, ◌++◌, ℕ, ◌+◌, ◌*◌, ◌<◌, ◌≤◌, ◌^◌, length, get_or};
ghost use Rattle.arith.specs.Bytes.{bytes4};
ghost use Rattle.arith.specs.Lists.{below, counted};
ghost use Rattle.sheet.specs.Layout.{◌above◌};
ghost use Rattle.sheet.specs.Refusals.{first};
ghost use Rattle.answer_write.specs.Inner.Encoding.{Wrote};
ghost use Rattle.side_walls.specs.SideWalls.{side_limit, any_of};
ghost use Rattle.side_parts.specs.ShortSheets.{pitch_rows};

use arith::bytes::{read1, read2, write1, write4};
use limits::Limits;
use sheet::Refusal;

// What a short sheet for a stack of n tiers is turned back for: its length or count, then the first A_L above 1,500.
pub fn test_pitch(pitch: &[u8], n: usize) -> Result<(), Refusal>
    requires { n ≤ 10 }
    ensures { result ≡ first (pitch_rows n pitch.now) }
{
    if pitch.len() != 1 + 2 * n || read1(pitch, 0) != n as u64 {
        return Err(Refusal {
            number: 14,
            second: 0,
        });
    }
    for i in 0..n {
        if 1500 < read2(pitch, 1 + 2 * i) {
            return Err(Refusal {
                number: 15,
                second: i + 1,
            });
        }
    }
    Ok(())
}

// 0, or 1 where one of n rackings exceeds the limit.
pub fn verdict_of(racking: &[u64], n: usize) -> u64
    requires { n ≤ length racking.now }
    ensures { (result ≡ cond (any_of (λ i. get_or racking.now i 0 above side_limit) (below n)) 1 0) × (result ≤ 1) }
{
    for i in 0..n {
        if (Limits::SIDE_WALL as u64) < racking[i] {
            return 1;
        }
    }
    0
}

// A count n, then racking and shift of each of n tiers; the place behind them.
pub fn write_tiers<'a>(
    answer: &mut [u8],
    at: usize,
    racking: &'a [u64],
    shift: &'a [u64],
    n: usize,
) -> usize
    requires { (n ≤ 10) × (n ≤ length racking.now) × (n ≤ length shift.now) × (at + 1 + 8 * n ≤ length answer.old)
        × ((i : ℕ) → i < n → get_or racking.now i 0 < 2 ^ 32) × ((i : ℕ) → i < n → get_or shift.now i 0 < 2 ^ 32) }
    ensures { Wrote answer.old at
        (counted n (λ i. bytes4 (get_or racking.now i 0) ++ bytes4 (get_or shift.now i 0)))
        answer.new result × (result ≡ at + 1 + 8 * n) }
{
    write1(answer, at, n as u64);
    let mut next = at + 1;
    for i in 0..n {
        write4(answer, next, racking[i]);
        write4(answer, next + 4, shift[i]);
        next += 8;
    }
    next
}
