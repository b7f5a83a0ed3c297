// The rows beside a row of a bay (document 02, P6): the nearest loaded one on either side, and how many empty ones lie between.

#![tactic(auto)]

ghost use Rattle.std.specs.Prelude.{◌≡◌, reverse, ◌<◌, length};
ghost use Rattle.bay_wind.specs.Exposure.{nearest_of, neighbours_of};

// A row as the rows beside it see it: the height of its boxes together, in mm, and their size in feet, 0 in an empty row.
#[derive(Clone, Copy)]
pub struct Outline {
    pub height: u32,
    pub size: u8,
}

// The nearest loaded row on one side, behind so many empty ones.
#[derive(Clone, Copy)]
pub struct Nearest {
    pub between: usize,
    pub row: Outline,
}

// On each side, if there is one.
#[derive(Clone, Copy)]
pub struct Neighbours {
    pub port: Option<Nearest>,
    pub starboard: Option<Nearest>,
}

// The nearest loaded row among those to port of a row, the last of which is beside it.
fn nearest_to_port(rows: &[Outline]) -> Option<Nearest>
    ensures { result ≡ nearest_of (reverse rows.now) }
{
    for j in (0..rows.len()).rev() {
        let row = rows[j];
        if row.size != 0 {
            let between = rows.len() - (j + 1);
            return Some(Nearest { between, row });
        }
    }
    None
}

// The same to starboard, where the first is beside it. One function over an iterator would be no plainer: of rows that it has passed and of
// those that are left its contract and its loop would speak by the iterator.
fn nearest_to_starboard(rows: &[Outline]) -> Option<Nearest>
    ensures { result ≡ nearest_of rows.now }
{
    for j in 0..rows.len() {
        let row = rows[j];
        if row.size != 0 {
            return Some(Nearest { between: j, row });
        }
    }
    None
}

// On both sides of row k.
pub fn neighbours_of(rows: &[Outline], k: usize) -> Neighbours
    requires { k < length rows.now }
    ensures { result ≡ neighbours_of rows.now k }
{
    let first = k + 1;
    Neighbours {
        port: nearest_to_port(&rows[..k]),
        starboard: nearest_to_starboard(&rows[first..]),
    }
}
