// Up to which height the rows beside a row of a bay cover its boxes (document 02, P6), and whether a box shows above that.

#![tactic(auto)]

ghost use Rattle.std.specs.Prelude.{◌≡◌};
ghost use Rattle.bay_cover.specs.Inner.Covers.{cover_above, cover_beside, cover_of, shown_above};

use bay_wind::{Nearest, Neighbours, Outline};

// Up to which height boxes of this size are covered by a loaded row behind so many empty ones; 0 where they are exposed fully.
fn cover_above(size: u8, between: usize, row: Outline) -> u32
    ensures { result ≡ cover_above size between row }
{
    if 3 <= between {
        return 0;
    }
    if (size == 40) & (row.size == 20) {
        return 0;
    }
    row.height
}

// On one side.
fn cover_beside(size: u8, nearest: Option<Nearest>) -> u32
    ensures { result ≡ cover_beside size nearest }
{
    match nearest {
        None => 0,
        Some(Nearest { between, row }) => cover_above(size, between, row),
    }
}

// On both sides.
pub fn cover_of(size: u8, near: Neighbours) -> u32
    ensures { result ≡ cover_of size near }
{
    let port = near.port;
    let starboard = near.starboard;
    cover_beside(size, port).min(cover_beside(size, starboard))
}

// Whether a box is exposed whose top stands at `top`.
pub fn shown_above(cover: u32, height: u16, top: u32) -> bool
    ensures { result ≡ shown_above cover height top }
{
    (height as u64) + 3 * (cover as u64) < 3 * (top as u64)
}
