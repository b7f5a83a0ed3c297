// The gear section of a call for arrangements (document 02, P13): its lashes, or why it is turned back.

#![tactic(auto)]

ghost use Rattle.std.specs.Prelude.{◌≡◌, ◌<◌};
ghost use Rattle.sheet.specs.Refusals.{first};
ghost use Rattle.gear.specs.Gear.{gear_rows, gear_decoded};

use sheet::{Lash, Refusal};

// Lashes of the gear: those of a section, or those that a choice uses. Entries of the array behind the count are blank.
#[derive(Clone, Copy)]
pub struct Gear {
    pub lashes: [Lash; 8],
    pub count: usize,
}

// The count and its lashes, as an end of a stack of n tiers, then whether bytes follow them.
fn test_gear(n: u64, gear: &[u8]) -> Result<(), Refusal>
    ensures { result ≡ first (gear_rows n gear.now) }
{
    // Not by `?`, so that an edit can change what is handed up (must-fail/lash_offsets_from_first_lash).
    if let Err(refusal) = sheet_decode::refusals::test_end(n, gear, 0) {
        return Err(refusal);
    }
    let spare = 1 + 20 * (sheet_fields::byte_at(gear, 0) as usize);
    if spare < gear.len() {
        return Err(Refusal {
            number: 2,
            second: spare,
        });
    }
    Ok(())
}

// The lashes of a section for a stack of n tiers, or the first fault.
pub fn decode(gear: &[u8], n: usize) -> Result<Gear, Refusal>
    ensures { result ≡ gear_decoded n gear.now }
{
    test_gear(n as u64, gear)?;
    let count = sheet_fields::byte_at(gear, 0) as usize;
    Ok(Gear {
        lashes: sheet_fields::lashes_of(gear, 0, count),
        count,
    })
}
