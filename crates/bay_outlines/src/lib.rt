// The rows of a bay as those beside them see them (document 02, P6), by the bay's bytes.

#![tactic(auto)]

ghost use Rattle.std.specs.Prelude.{Ok, ◌≡◌, map, ◌+◌, ◌*◌, ◌≤◌, length};
ghost use Rattle.arith.specs.Lists.{below, padded};
ghost use Rattle.sheet.specs.Layout.{tiers_in};
ghost use Rattle.bay_wind.specs.Exposure.{height_of, empty_row};
ghost use Rattle.bay_rows.specs.Bay.{row_count, row_of, outline_of};
ghost use Rattle.bay_rows.specs.Refusals.{row_reading, rows_refusal};

use bay_wind::Outline;

// The height of the first n tiers of a stack sheet together.
fn height_of(row: &[u8], n: usize) -> u32
    requires { (n ≤ 10) × (9 + 12 * n ≤ length row.now) }
    ensures { result ≡ height_of (tiers_in row.now n) n }
{
    let mut height: u32 = 0;
    for k in 0..n {
        let t = sheet_fields::tier_of(row, 9 + 12 * k);
        height += t.height as u32;
    }
    height
}

fn empty_row() -> Outline
    ensures { result ≡ empty_row }
{
    Outline { height: 0, size: 0 }
}

// A row that has no refusal, as the rows beside it see it.
fn outline_of(row: &[u8]) -> Outline
    requires { row_reading row.now ≡ Ok tt }
    ensures { result ≡ outline_of row.now }
{
    if row.len() == 0 {
        return empty_row();
    }
    let n = sheet_fields::byte_at(row, 8) as usize;
    Outline {
        height: height_of(row, n),
        size: sheet_fields::field1(row, 9),
    }
}

// The outlines of the n rows of a bay that has no refusal; empty rows behind the last.
pub fn outlines(bay: &[u8], n: usize) -> [Outline; 24]
    requires { (n ≤ 24) × (n ≡ row_count bay.now) × (rows_refusal bay.now ≡ Ok tt) }
    ensures { result ≡ padded 24 empty_row (map (λ k. outline_of (row_of bay.now k)) (below n)) }
{
    let mut outlines = [empty_row(); 24];
    let mut at = 1;
    for k in 0..n {
        outlines[k] = outline_of(bay_rows::row_at(bay, at));
        at = bay_rows::next_place(bay, at);
    }
    outlines
}
