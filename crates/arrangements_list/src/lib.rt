// The choices of the gear that the check accepts, one byte each, in their order (document 02, P13).

#![tactic(auto)]

ghost use Rattle.std.specs.Prelude.{◌≡◌, cond, ◌&&◌, [], ◌∷◌, ◌+◌, ◌<◌, ◌≤◌, ◌^◌, ltb, length, take};
ghost use Rattle.std.proofs.lemmas.List.Edits.{sets};
ghost use Rattle.arith.specs.Bytes.{bytes2};
ghost use Rattle.answer_write.specs.Inner.Encoding.{Wrote};
ghost use Rattle.choices.specs.Choices.{chosen};
ghost use Rattle.arrangements_judge.specs.Inner.Judged.{Given, accepted_with};
ghost use Rattle.arrangements_list.specs.Inner.Listing.{GearGiven, accepted_choices};

use arrangements_judge::{Stack, accepts};
use choices::choice_at;
use chosen_lashes::gather;
use sheet::Lash;
use statics::LashMeasures;

// How many choices there are of 0 to 8 lashes.
const COUNTS: [usize; 9] = [1, 2, 4, 8, 16, 32, 64, 128, 256];

fn choices_of(m: usize) -> usize
    requires { m ≤ 8 }
    ensures { result ≡ 2 ^ m }
{
    COUNTS[m]
}

// Whether a choice is one of m lashes, which are `all` choices, and the check accepts it.
fn judge(
    choice: u8,
    all: usize,
    stack: &Stack,
    lashes: [Lash; 8],
    m: usize,
    measures: &LashMeasures,
) -> bool
    requires stack_given { Given stack.now }
    requires gear_given { GearGiven stack.now.sheet m (take m lashes) measures.now.lengths measures.now.stiffnesses }
    ensures { result ≡ ltb choice all && accepted_with (chosen choice (take m lashes)) stack.now.sheet }
{
    if all <= choice as usize {
        return false;
    }
    let mut used = LashMeasures::ZEROS;
    let g = gather(choice, lashes, m, measures, &mut used);
    accepts(stack, g, &used)
}

// A choice's byte at `at` if it is accepted, and the place behind it.
fn put_choice(list: &mut [u8], at: usize, choice: u8, accepted: bool) -> usize
    requires { at < length list.old }
    ensures { Wrote list.old at (cond accepted (choice ∷ []) []) list.new result × (result ≤ at + 1) }
{
    if !accepted {
        return at;
    }
    list[at] = choice;
    at + 1
}

// The accepted choices of m lashes, one behind another from byte 2 on; the place behind them.
pub fn put_choices(
    stack: &Stack,
    lashes: [Lash; 8],
    m: usize,
    measures: &LashMeasures,
    list: &mut [u8],
) -> usize
    requires stack_given { Given stack.now }
    requires gear_given { GearGiven stack.now.sheet m (take m lashes) measures.now.lengths measures.now.stiffnesses
        × (258 ≤ length list.old) }
    ensures { Wrote list.old 2 (accepted_choices stack.now.sheet (take m lashes) m) list.new result × (result ≤ 258) }
{
    let all = choices_of(m);
    let mut next = 2;
    for i in 0..256 {
        let choice = choice_at(i);
        let accepted = judge(choice, all, stack, lashes, m, measures);
        next = put_choice(list, next, choice, accepted);
    }
    next
}

// The count of the choices, at the list's start.
pub fn put_count(list: &mut [u8], n: usize)
    requires { 2 ≤ length list.old }
    ensures { list.new ≡ sets list.old 0 (bytes2 n) }
{
    arith::bytes::write2(list, 0, n as u64);
}
