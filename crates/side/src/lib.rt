// Side walls under pitching (document 02, P5): bytes of a stack sheet and of a second short sheet in, bytes of a side answer out.

#![tactic(auto)]

ghost use Rattle.std.specs.Prelude.{length};
ghost use Rattle.sheet.specs.Fits.{Fits};
ghost use Rattle.side_walls.specs.Inner.Units.{Pitched};
ghost use Rattle.side.specs.Sides.{Sided};
ghost use Rattle.side.specs.Inner.Steps.{Settled, room_reading, own_reading};

use arith::bytes::write1;
use sheet::{Refusal, Sheet};
use side_parts::{test_pitch, verdict_of, write_tiers};

// The room that a side answer is given, in bytes; none is longer.
const LONGEST: usize = 82;

// The side answer to a sheet and a short sheet within the limits; a short buffer is left as it was.
fn answer_side(t: Sheet, pitch: &[u8], answer: &mut [u8]) -> Result<usize, Refusal>
    requires { Fits t × Pitched t.ntiers pitch.now }
    ensures { Settled (room_reading (length answer.old)) t pitch.now answer.old
        answer.new result }
{
    if answer.len() < LONGEST {
        return Err(Refusal {
            number: 13,
            second: LONGEST,
        });
    }
    let f = side_walls::figures_of(t, pitch);
    let n = t.ntiers;
    write1(answer, 0, verdict_of(&f.racking, n));
    Ok(write_tiers(answer, 1, &f.racking, &f.shift, n))
}

// The side answer to a sheet within the limits, unless the short sheet is turned back.
fn answer_pitched(t: Sheet, pitch: &[u8], answer: &mut [u8]) -> Result<usize, Refusal>
    requires { Fits t }
    ensures { Settled (own_reading t.ntiers pitch.now (length answer.old)) t pitch.now
        answer.old answer.new result }
{
    test_pitch(pitch, t.ntiers)?;
    answer_side(t, pitch, answer)
}

// The side answer to a stack sheet and its short sheet (`pitch`), written from the buffer's start; a refusal leaves the buffer as it was.
pub fn side(sheet: &[u8], pitch: &[u8], answer: &mut [u8]) -> Result<usize, Refusal>
    ensures { Sided sheet.now pitch.now answer.old answer.new result }
{
    let t = sheet_decode::decode(sheet)?;
    answer_pitched(t, pitch, answer)
}
