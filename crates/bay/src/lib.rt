// The whole bay in one report (document 02, P6): every row is tested first, then each is answered as the check answers its stack with
// the wind codes that the rows beside it give it.

#![tactic(auto)]

ghost use Rattle.std.specs.Prelude.{Ok, ◌≡◌, [], ◌∷◌, ◌++◌, ◌<◌, ◌≤◌, length, drop};
ghost use Rattle.std.proofs.lemmas.List.Edits.{sets};
ghost use Rattle.arith.specs.Bytes.{bytes4};
ghost use Rattle.answer.specs.Checked.{kept};
ghost use Rattle.bay_rows.specs.Refusals.{rows_refusal};
ghost use Rattle.bay.specs.Reports.{BayReported};
ghost use Rattle.bay.specs.Inner.Named.{bay_bytes, bay_returned, bay_written};

use bay_answer::Totals;
use bay_rows::BayRefusal;

// The room that a report is given, in bytes; none is longer.
const LONGEST: usize = 20073;

// The number of accepted rows, the total mass and the greatest racking, at the report's start.
fn put_totals(report: &mut [u8], totals: Totals)
    requires { (9 ≤ length report.old) × (totals.accepted < 256) × (totals.mass < 4294967296) × (totals.racking < 4294967296) }
    ensures { report.new ≡ sets report.old 0
        ((totals.accepted ∷ []) ++ bytes4 totals.mass ++ bytes4 totals.racking) }
{
    arith::bytes::write1(report, 0, totals.accepted);
    arith::bytes::write4(report, 1, totals.mass);
    arith::bytes::write4(report, 5, totals.racking as u64);
}

// The report of a bay that has no refusal: its length.
fn put_report(bay: &[u8], report: &mut [u8]) -> usize
    requires { (rows_refusal bay.now ≡ Ok tt) × (20073 ≤ length report.old) }
    ensures { (result ≡ length (bay_bytes bay.now))
        × (report.new ≡ bay_bytes bay.now ++ drop (length (bay_bytes bay.now)) report.old) }
{
    let n = sheet_fields::byte_at(bay, 0) as usize;
    let totals = bay_put_rows::put_rows(bay, n, &mut report[9..]);
    put_totals(report, totals);
    9 + totals.length
}

// The report of a bay. A refusal leaves the buffer as it was.
pub fn report(bay: &[u8], report: &mut [u8]) -> Result<usize, BayRefusal>
    ensures reported { BayReported kept bay.now report.old report.new result }
    ensures named { (result ≡ bay_returned bay.now (length report.old))
        × (report.new ≡ bay_written bay.now report.old) }
{
    bay_rows::test_bay(bay)?;
    if report.len() < LONGEST {
        return Err(BayRefusal {
            number: 13,
            second: LONGEST,
            row: 0,
        });
    }
    Ok(put_report(bay, report))
}
