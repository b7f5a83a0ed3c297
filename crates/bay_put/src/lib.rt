// The answer to one row of a bay, put into the report behind its length (document 02, P6).

#![tactic(auto)]

ghost use Rattle.std.specs.Prelude.{Ok, ◌≡◌, ◌++◌, ◌≤◌, length, drop};
ghost use Rattle.std.proofs.lemmas.List.Edits.{sets};
ghost use Rattle.arith.specs.Bytes.{bytes2};
ghost use Rattle.sheet.specs.Layout.{sheet_of};
ghost use Rattle.sheet.specs.Fits.{Fits};
ghost use Rattle.sheet.specs.Refusals.{first, sheet_rows};
ghost use Rattle.sheet.specs.Inner.Changed.{with_tiers};
ghost use Rattle.bay_wind.specs.Exposure.{sheet_in_bay};
ghost use Rattle.bay_rows.specs.Refusals.{row_reading};
ghost use Rattle.bay_answer.specs.Rows.{row_bytes};
ghost use Rattle.bay_answer.specs.Inner.Totalled.{row_totals, Bounded};
ghost use Rattle.bay_put.specs.Inner.Answered.{answer_in, RowAnswered, RowPut};

use arith::bytes::write2;
use bay_answer::Totals;
use bay_wind::Neighbours;
use sheet::Tier;

// The answer to a row that has no refusal, with these tiers in place of its own, from the buffer's start: its length. There is room, so it
// is never refused.
fn answer_row(row: &[u8], tiers: [Tier; 10], answer: &mut [u8]) -> usize
    requires { (first (sheet_rows row.now) ≡ Ok tt) × Fits (with_tiers tiers (sheet_of row.now)) × (834 ≤ length answer.old) }
    ensures { RowAnswered (with_tiers tiers (sheet_of row.now)) answer.old answer.new result }
{
    let rule = load_rules::rule_of(sheet_fields::head_of(row));
    stack_check::answer_with(row, tiers, rule, answer).unwrap_or(0)
}

// The answer to a row that has no refusal, behind its length, from the buffer's start; and what the report takes from it.
fn put_answer(row: &[u8], near: Neighbours, report: &mut [u8]) -> Totals
    requires { (first (sheet_rows row.now) ≡ Ok tt) × (836 ≤ length report.old) }
    ensures { RowPut near row.now report.old report.new result }
{
    let ntiers = sheet_fields::byte_at(row, 8) as usize;
    let ndoor = sheet_fields::byte_at(row, sheet_fields::door_place(row)) as usize;
    let mass = bay_answer::mass_of(row, ntiers);
    let tiers = bay_sheet::tiers_in_bay(row, ntiers, near);
    let n = answer_row(row, tiers, &mut report[2..]);
    write2(report, 0, n as u64);
    let end = 2 + n;
    bay_answer::totals_of(&report[2..end], ntiers, ndoor, mass)
}

// A row's answer behind its length, from the buffer's start: length 0 for an empty row.
pub fn put_row(row: &[u8], near: Neighbours, report: &mut [u8]) -> Totals
    requires { (row_reading row.now ≡ Ok tt) × (836 ≤ length report.old) }
    ensures { (result ≡ row_totals (sheet_in_bay near (sheet_of row.now)) (answer_in near row.now)) × Bounded 1 result
        × (report.new ≡ row_bytes (answer_in near row.now)
        ++ drop (length (row_bytes (answer_in near row.now))) report.old) }
{
    if row.len() == 0 {
        write2(report, 0, 0);
        return Totals {
            length: 2,
            accepted: 0,
            mass: 0,
            racking: 0,
        };
    }
    put_answer(row, near, report)
}
