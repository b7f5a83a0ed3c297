// Tests a sheet's items in the order of reading, and names the first row of document 01's table that holds.

ghost use Rattle.std.specs.Prelude.{◌≡◌, ◌+◌, ◌*◌, ◌<◌, ◌≤◌, Ok, length};
ghost use mathlib.Core.List.{[], ◌∷◌, flat_map};
ghost use Rattle.arith.specs.Lists.{below};
ghost use Rattle.sheet.specs.Layout.{◌above◌};
ghost use Rattle.sheet.specs.Refusals.{first, row, head_rows, tiers_rows, ends_rows, sheet_rows};
ghost use Rattle.sheet.specs.Refusals.{tier_rows, lash_rows, end_rows};
ghost use Rattle.sheet_limits.specs.Inner.Ranks.{least_rank};

use sheet::Refusal;
use sheet_limits::{breaking_fits, lash_fits, off_tiers, rank, tier_fits};

// Row 1: the item due next ends at `end`, which the sheet must reach.
fn test_there(s: &[u8], end: usize) -> Result<(), Refusal>
    ensures { (result ≡ first (row 1 (length s.now) (end above length s.now) ∷ [])) × (result ≡ Ok tt → end ≤ length s.now) }
{
    if s.len() < end {
        return Err(Refusal {
            number: 1,
            second: s.len(),
        });
    }
    Ok(())
}

fn test_head(s: &[u8]) -> Result<(), Refusal>
    ensures { result ≡ first (head_rows s.now) }
{
    test_there(s, 8)?;
    let h = sheet_fields::head_of(s);
    if !((h.rule == 1) | (h.rule == 2)) | (h.zero != 0) {
        return Err(Refusal {
            number: 3,
            second: 0,
        });
    }
    if 12 < h.route {
        return Err(Refusal {
            number: 4,
            second: 1,
        });
    }
    if (2 < h.lockMaterial) | !breaking_fits(h.lockBreakingLoad) {
        return Err(Refusal {
            number: 5,
            second: 2,
        });
    }
    Ok(())
}

fn test_tier(s: &[u8], k: usize) -> Result<(), Refusal>
    requires { k < 10 }
    ensures { result ≡ first (tier_rows s.now k) }
{
    let at = 9 + 12 * k;
    test_there(s, at + 12)?;
    let t = sheet_fields::tier_of(s, at);
    if !tier_fits(t) {
        return Err(Refusal {
            number: 7,
            second: at,
        });
    }
    if t.size != sheet_fields::field1(s, 9) {
        return Err(Refusal {
            number: 8,
            second: at,
        });
    }
    Ok(())
}

fn test_each_tier(s: &[u8], n: usize) -> Result<(), Refusal>
    requires { n ≤ 10 }
    ensures { result ≡ first (flat_map (tier_rows s.now) (below n)) }
{
    for k in 0..n {
        test_tier(s, k)?;
    }
    Ok(())
}

fn test_tiers(s: &[u8]) -> Result<(), Refusal>
    ensures { result ≡ first (tiers_rows s.now) }
{
    test_there(s, 9)?;
    let n = sheet_fields::byte_at(s, 8);
    if (n == 0) | (10 < n) {
        return Err(Refusal {
            number: 6,
            second: 8,
        });
    }
    test_each_tier(s, n as usize)
}

// Lash k of an end whose count stands at `at`, on a stack of n tiers: `least` is the least rank that it may have.
fn test_lash(n: u64, s: &[u8], at: usize, k: usize, least: u64) -> Result<(), Refusal>
    requires { (at < 10000) × (k < 8) × (least ≡ least_rank s.now at k) }
    ensures { result ≡ first (lash_rows n s.now at k) }
{
    let place = at + 1 + 20 * k;
    test_there(s, place + 20)?;
    let l = sheet_fields::lash_of(s, place);
    if !lash_fits(l) {
        return Err(Refusal {
            number: 10,
            second: place,
        });
    }
    if off_tiers(n, l) {
        return Err(Refusal {
            number: 11,
            second: place,
        });
    }
    if rank(l) < least {
        return Err(Refusal {
            number: 12,
            second: place,
        });
    }
    Ok(())
}

fn test_each_lash(n: u64, s: &[u8], at: usize, count: usize) -> Result<(), Refusal>
    requires { (at < 10000) × (count ≤ 8) }
    ensures { result ≡ first (flat_map (lash_rows n s.now at) (below count)) }
{
    let mut least = 0;
    for k in 0..count {
        test_lash(n, s, at, k, least)?;
        least = rank(sheet_fields::lash_of(s, at + 1 + 20 * k)) + 1;
    }
    Ok(())
}

// An end of a stack of n tiers: the count at `at`, then its lashes.
pub fn test_end(n: u64, s: &[u8], at: usize) -> Result<(), Refusal>
    requires { at < 10000 }
    ensures { result ≡ first (end_rows n s.now at) }
{
    test_there(s, at + 1)?;
    let count = sheet_fields::byte_at(s, at);
    if 8 < count {
        return Err(Refusal {
            number: 9,
            second: at,
        });
    }
    test_each_lash(n, s, at, count as usize)
}

// Both ends, then whether bytes follow the last entry.
fn test_ends(s: &[u8]) -> Result<(), Refusal>
    ensures { result ≡ first (ends_rows s.now) }
{
    let n = sheet_fields::byte_at(s, 8);
    test_end(n, s, sheet_fields::door_place(s))?;
    test_end(n, s, sheet_fields::closed_place(s))?;
    let spare = sheet_fields::spare_place(s);
    if spare < s.len() {
        return Err(Refusal {
            number: 2,
            second: spare,
        });
    }
    Ok(())
}

pub fn test_sheet(s: &[u8]) -> Result<(), Refusal>
    ensures { result ≡ first (sheet_rows s.now) }
{
    test_head(s)?;
    test_tiers(s)?;
    test_ends(s)
}
