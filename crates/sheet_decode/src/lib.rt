// A stack sheet read from its bytes: what they hold, or why they are turned back.

#![tactic(auto)]

pub mod refusals; // refusals.rt: the tests of a sheet's items, in the order of reading

ghost use Rattle.std.specs.Prelude.{◌≡◌};
ghost use Rattle.sheet.specs.Refusals.{decoded};

use sheet::{Refusal, Sheet};

// The sheet that the bytes hold, or the first fault.
pub fn decode(s: &[u8]) -> Result<Sheet, Refusal>
    ensures { result ≡ decoded s.now }
{
    refusals::test_sheet(s)?;
    Ok(sheet_fields::sheet_of(s))
}
