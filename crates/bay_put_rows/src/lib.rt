// The rows of a bay that has no refusal, answered one behind another in the report (document 02, P6).

#![tactic(auto)]

ghost use Rattle.std.specs.Prelude.{Ok, ◌≡◌, ◌++◌, ◌<◌, ◌≤◌, ◌^◌, length, drop};
ghost use Rattle.bay_rows.specs.Bay.{row_count};
ghost use Rattle.bay_rows.specs.Refusals.{rows_refusal};
ghost use Rattle.bay_answer.specs.Inner.Totalled.{Bounded};
ghost use Rattle.bay_put_rows.specs.Inner.Together.{rows_bytes, totals_of, added_up};

use bay_answer::Totals;

// Nothing said yet.
fn none() -> Totals
    ensures { (result.length ≡ 0) × (result.accepted ≡ 0) × (result.mass ≡ 0) × (result.racking ≡ 0) }
{
    Totals {
        length: 0,
        accepted: 0,
        mass: 0,
        racking: 0,
    }
}

// What is said of some rows and of others, together.
fn added_up(a: Totals, b: Totals) -> Totals
    requires { (a.length < 2 ^ 32) × (b.length < 2 ^ 32) × (a.accepted < 2 ^ 32) × (b.accepted < 2 ^ 32) × (a.mass < 2 ^ 32)
        × (b.mass < 2 ^ 32) }
    ensures { result ≡ added_up a b }
{
    Totals {
        length: a.length + b.length,
        accepted: a.accepted + b.accepted,
        mass: a.mass + b.mass,
        racking: bay_answer::larger_of(a.racking, b.racking),
    }
}

// The answers of the n rows of a bay that has no refusal, one behind another, and what is said of the rows together.
pub fn put_rows(bay: &[u8], n: usize, report: &mut [u8]) -> Totals
    requires { (rows_refusal bay.now ≡ Ok tt) × (n ≡ row_count bay.now) × (20064 ≤ length report.old) }
    ensures { (result ≡ totals_of bay.now n) × Bounded n result
        × (report.new ≡ rows_bytes bay.now n ++ drop (length (rows_bytes bay.now n)) report.old) }
{
    let rows = bay_outlines::outlines(bay, n);
    let mut totals = none();
    let mut at = 1;
    for k in 0..n {
        let near = bay_wind::neighbours_of(&rows[..n], k);
        let to = totals.length;
        let row = bay_put::put_row(bay_rows::row_at(bay, at), near, &mut report[to..]);
        totals = added_up(totals, row);
        at = bay_rows::next_place(bay, at);
    }
    totals
}
