// A row's tiers as they stand in its bay (document 02, P6): read from its bytes, their wind parts worked out afresh.

#![tactic(auto)]

ghost use Rattle.std.specs.Prelude.{Ok, ◌≡◌};
ghost use Rattle.sheet.specs.Layout.{wind_code, tier_count, sheet_of};
ghost use Rattle.sheet.specs.Refusals.{first, sheet_rows};
ghost use Rattle.bay_wind.specs.Exposure.{with_wind, sheet_in_bay};

use bay_wind::Neighbours;
use sheet::Tier;

fn wind_code(exposed: bool, turned: bool) -> u8
    ensures { result ≡ wind_code exposed turned }
{
    (exposed as u8) + 2 * (turned as u8)
}

// The tier with another wind part: a turned box stays turned.
fn with_wind(t: Tier, exposed: bool) -> Tier
    ensures { result ≡ with_wind exposed t }
{
    let mut copy = t;
    copy.wind = wind_code(exposed, sheet::turned(t));
    copy
}

// The n tiers of a row, bottom first, with their wind parts worked out afresh. All are of one size, so the cover is the same for each.
pub fn tiers_in_bay(row: &[u8], n: usize, near: Neighbours) -> [Tier; 10]
    requires { (first (sheet_rows row.now) ≡ Ok tt) × (n ≡ tier_count row.now) }
    ensures { result ≡ (sheet_in_bay near (sheet_of row.now)).tiers }
{
    let cover = bay_cover::cover_of(sheet_fields::field1(row, 9), near);
    let mut tiers = [sheet_fields::blank_tier(); 10];
    let mut top: u32 = 0;
    for k in 0..n {
        let t = sheet_fields::tier_of(row, 9 + 12 * k);
        top += t.height as u32;
        tiers[k] = with_wind(t, bay_cover::shown_above(cover, t.height, top));
    }
    tiers
}
