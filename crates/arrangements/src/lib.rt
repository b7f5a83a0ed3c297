// Every arrangement of the gear aboard (document 02, P13): bytes of a stack sheet without lashes and of a gear section in, the list of the
// choices that the check accepts out.

#![tactic(auto)]

ghost use Rattle.std.specs.Prelude.{◌≡◌, ◌≤◌, length, take};
ghost use Rattle.sheet.specs.Fits.{Fits};
ghost use Rattle.answer.specs.Checked.{kept};
ghost use Rattle.answer_write.specs.Inner.Encoding.{Wrote};
ghost use Rattle.gear.specs.Gear.{gear_lashes};
ghost use Rattle.arrangements.specs.Arrangements.{Listed};
ghost use Rattle.arrangements.specs.Inner.Named.{list_for, room_reading, gear_reading, list_returned, list_written};
ghost use Rattle.arrangements.specs.Inner.Named.{Aboard, Settled};

use arrangements_judge::Stack;
use arrangements_list::{put_choices, put_count};
use figures_lashes::lash_stiffnesses;
use figures_tiers::loads_of;
use limits::{lower_of, safe_load};
use sheet::{Lash, Refusal, Sheet};
use statics::{LashMeasures, TierMeasures, TierSprings};
use tier_springs::{CLOSED_SPRING, DOOR_SPRING, springs_of};

// The room that a list is given, in bytes; none is longer.
const LONGEST: usize = 258;

// The list of a stack within the limits, with m lashes aboard; its length. What does not depend on the choice is worked out once.
fn write_list(t: Sheet, lashes: [Lash; 8], m: usize, list: &mut [u8]) -> usize
    requires { Fits t × Aboard t m (take m lashes) × (258 ≤ length list.old) }
    ensures { Wrote list.old 0 (list_for t (take m lashes)) list.new result × (result ≤ 258) }
{
    let head = t.head;
    let rule = load_rules::rule_of(head);
    let pull = lower_of(safe_load(head.lockMaterial, head.lockBreakingLoad));
    let mut stack = Stack {
        sheet: t,
        pull,
        springs: TierSprings {
            door: [DOOR_SPRING; 10],
            closed: [CLOSED_SPRING; 10],
        },
        tiers: TierMeasures::ZEROS,
    };
    loads_of(t.ntiers, t.tiers, rule, &mut stack.tiers);
    springs_of(t.ntiers, t.tiers, &mut stack.springs);
    let mut measures = LashMeasures::ZEROS;
    lash_stiffnesses(lashes, m, &mut measures);
    let next = put_choices(&stack, lashes, m, &measures, list);
    put_count(list, next - 2);
    next
}

// The list of a stack within the limits, unless the buffer is short, which is left as it was.
fn list_aboard(t: Sheet, lashes: [Lash; 8], m: usize, list: &mut [u8]) -> Result<usize, Refusal>
    requires { Fits t × Aboard t m (take m lashes) }
    ensures { Settled (room_reading (length list.old)) (list_for t (take m lashes)) list.old
        list.new result }
{
    if list.len() < LONGEST {
        return Err(Refusal {
            number: 13,
            second: LONGEST,
        });
    }
    Ok(write_list(t, lashes, m, list))
}

// The list of a stack within the limits, unless it holds a lash or the gear section is turned back.
fn list_gear(t: Sheet, gear: &[u8], list: &mut [u8]) -> Result<usize, Refusal>
    requires { Fits t }
    ensures { Settled (gear_reading t gear.now (length list.old)) (list_for t (gear_lashes gear.now))
        list.old list.new result }
{
    if (0 < t.ndoor) | (0 < t.nclosed) {
        return Err(Refusal {
            number: 24,
            second: 0,
        });
    }
    let aboard = gear::decode(gear, t.ntiers)?;
    list_aboard(t, aboard.lashes, aboard.count, list)
}

// The list of a stack sheet and the gear aboard, written from the buffer's start; a refusal leaves the buffer as it was.
pub fn list(sheet: &[u8], gear: &[u8], list: &mut [u8]) -> Result<usize, Refusal>
    ensures listed { Listed kept sheet.now gear.now list.old list.new result }
    ensures named { (result ≡ list_returned sheet.now gear.now (length list.old))
        × (list.new ≡ list_written sheet.now gear.now list.old) }
{
    let t = sheet_decode::decode(sheet)?;
    list_gear(t, gear, list)
}
