// A bay sheet read from its bytes (document 02, P6): where its rows lie, and what turns it back.

#![tactic(auto)]

ghost use Rattle.std.specs.Prelude.{◌≡◌, ◌+◌, ◌<◌, ◌≤◌, length};
ghost use Rattle.arith.specs.Bytes.{le2};
ghost use Rattle.arith.specs.Lists.{below};
ghost use Rattle.bay_rows.specs.Bay.{row_place, row_at};
ghost use Rattle.bay_rows.specs.Refusals.{row16, row_reading, first_of, rows_refusal};

use sheet::Refusal;

// Why a bay is turned back: the two numbers of a refusal and the row, from 1, or 0 where it is about none.
#[derive(Clone, Copy)]
pub struct BayRefusal {
    pub number: u64,
    pub second: usize,
    pub row: usize,
}

// The length that stands at `at`; bytes past the end read 0.
fn length_at(bay: &[u8], at: usize) -> usize
    requires { at < 2000000 }
    ensures { (result ≡ le2 bay.now at) × (result < 65536) }
{
    (sheet_fields::byte_at(bay, at) + 256 * sheet_fields::byte_at(bay, at + 1)) as usize
}

// The place behind the row whose length stands at `at`.
pub fn next_place(bay: &[u8], at: usize) -> usize
    requires { at < 2000000 }
    ensures { (result ≡ at + 2 + le2 bay.now at) × (result ≤ at + 65537) }
{
    at + 2 + length_at(bay, at)
}

// The row whose length stands at `at`: a part of the bay's own bytes.
pub fn row_at(bay: &[u8], at: usize) -> &[u8]
    requires { (at < 2000000) × (at + 2 + le2 bay.now at ≤ length bay.now) }
    ensures { result.now ≡ row_at bay.now at }
{
    let from = at + 2;
    let to = from + length_at(bay, at);
    &bay[from..to]
}

// The place behind the last of n rows.
fn end_place(bay: &[u8], n: usize) -> usize
    requires { n ≤ 24 }
    ensures { result ≡ row_place bay.now n }
{
    let mut at = 1;
    for _ in 0..n {
        at = next_place(bay, at);
    }
    at
}

// Whether the count is bad, or the lengths do not end with the bay's bytes.
fn badly_laid_out(bay: &[u8]) -> bool
    ensures { result ≡ (row16 bay.now).holds }
{
    let n = sheet_fields::byte_at(bay, 0) as usize;
    if !((1 <= n) & (n <= 24)) {
        return true;
    }
    end_place(bay, n) != bay.len()
}

// The tests of one row.
fn test_row(row: &[u8]) -> Result<(), Refusal>
    ensures { result ≡ row_reading row.now }
{
    if row.len() == 0 {
        return Ok(());
    }
    sheet_decode::refusals::test_sheet(row)
}

// The tests of n rows, one after another.
fn test_rows(bay: &[u8], n: usize) -> Result<(), BayRefusal>
    requires { (n ≤ 24) × (row_place bay.now n ≤ length bay.now) }
    ensures { result ≡ first_of bay.now (below n) }
{
    let mut at = 1;
    for k in 0..n {
        if let Err(refusal) = test_row(row_at(bay, at)) {
            return Err(BayRefusal {
                number: refusal.number,
                second: refusal.second,
                row: k + 1,
            });
        }
        at = next_place(bay, at);
    }
    Ok(())
}

// What turns the bay back before a report buffer is looked at.
pub fn test_bay(bay: &[u8]) -> Result<(), BayRefusal>
    ensures { result ≡ rows_refusal bay.now }
{
    if badly_laid_out(bay) {
        return Err(BayRefusal {
            number: 16,
            second: 0,
            row: 0,
        });
    }
    test_rows(bay, sheet_fields::byte_at(bay, 0) as usize)
}
