// Twenties in forty-foot guides (document 02, P12): whether the masses of a stack of 20-ft boxes are within CR Tables 5-2 and 5-3.

#![tactic(auto)]

mod tables; // tables.rt: the two tables

ghost use Rattle.std.specs.Prelude.{◌≡◌, ◌<◌, ◌≤◌, ◌^◌, length};
ghost use Rattle.twenties.specs.Judgements.{permitted, sum, all_fit, judgement};

use sheet::Refusal;

// Yes or no, with the total of all tiers but the lowest and the permitted mass, in kg.
#[derive(Clone, Copy)]
pub struct Verdict {
    pub yes: bool,
    pub total: u64,
    pub permitted: u64,
}

// Judges the masses of the twenties alone, lowest first, in kg: by table 0 (5-2, without) or 1 (5-3, with a 40-ft box on top), at an
// acceleration in thousandths of g. No mass is read unless there are 3 to 11.
pub fn judge(table: u32, acceleration: u32, masses: &[u32]) -> Result<Verdict, Refusal>
    ensures { result ≡ judgement table acceleration masses.now }
{
    let tiers = masses.len();
    if (1 < table)
        | !((350 <= acceleration) & (acceleration <= 650))
        | !((3 <= tiers) & (tiers <= 11))
    {
        return Err(Refusal {
            number: 22,
            second: 0,
        });
    }
    if !all_fit(masses) {
        return Err(Refusal {
            number: 23,
            second: 0,
        });
    }
    let total = total_of(&masses[1..]);
    let permitted = permitted_at(table, acceleration, tiers);
    Ok(Verdict {
        yes: total <= permitted,
        total,
        permitted,
    })
}

// Whether each box weighs from 1 to 30,480 kg.
fn all_fit(masses: &[u32]) -> bool
    ensures { result ≡ all_fit masses.now }
{
    masses.iter().all(|mass| 1 <= *mass && *mass <= 30480)
}

// The total of these boxes.
fn total_of(masses: &[u32]) -> u64
    requires { length masses.now ≤ 11 }
    ensures { result ≡ sum masses.now }
{
    masses.iter().map(|mass| wide(*mass)).sum()
}

fn wide(x: u32) -> u64
    ensures { (result ≡ x) × (result < 2 ^ 32) }
{
    x as u64
}

// The mass that all tiers but the lowest may have together: by the row of the acceleration, or the next higher one.
fn permitted_at(table: u32, acceleration: u32, tiers: usize) -> u64
    requires { (350 ≤ acceleration) × (acceleration ≤ 650) × (3 ≤ tiers) × (tiers ≤ 11) }
    ensures { result ≡ permitted table acceleration tiers }
{
    let row = (acceleration - 350 + 9) / 10;
    tables::entry(table, row as usize, tiers) as u64 * 100 * (tiers - 1) as u64
}
