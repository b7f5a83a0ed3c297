// A stack sheet: what it holds, or why it is turned back; `sheet_decode` reads one from its bytes. Entries of the arrays are counted
// from 0, bottom tier first.

#![tactic(auto)]

ghost use Rattle.std.specs.Prelude.{◌≡◌, ◌<◌, ◌≤◌};
ghost use Rattle.sheet.specs.Layout.{exposed, turned};
ghost use Rattle.sheet.specs.Lashings.{lashing_of};
ghost use Rattle.sheet.specs.Routes.{route_percent};

// Fields have the widths of the sheet's own fields, so that a sheet is cheap to copy. Codes stay numbers, no enums: a field holds whatever
// its byte does (`head_of`, `tier_of`, `lash_of` of specs/Layout), and the table's rows judge it there.

// The head: rule number, route, lock material (0 ordinary steel, 1 higher strength, 2 nodular iron), a zero byte,
// lock breaking load in N.
#[derive(Clone, Copy)]
pub struct Head {
    pub rule: u8,
    pub route: u8,
    pub lockMaterial: u8,
    pub zero: u8,
    pub lockBreakingLoad: u32,
}

// A tier: size in feet, wind (0 sheltered, 1 exposed, and 2 more where the box stands turned), height in mm, mass in kg; A_T,
// A_Vmax and A_Vmin in thousandths of g.
#[derive(Clone, Copy)]
pub struct Tier {
    pub size: u8,
    pub wind: u8,
    pub height: u16,
    pub mass: u16,
    pub aT: u16,
    pub aVmax: u16,
    pub aVmin: u16,
}

// A lash: tier (from 1), hook (0 top corner, 1 bottom corner), kind (0 cross, 1 side), material (0 ordinary rod, 1 higher
// strength rod, 2 wire, 3 chain); LX, LY, LZ in mm, area in mm², modulus in N/mm², breaking load in N.
#[derive(Clone, Copy)]
pub struct Lash {
    pub tier: u8,
    pub hook: u8,
    pub kind: u8,
    pub material: u8,
    pub lx: u16,
    pub ly: u16,
    pub lz: u16,
    pub area: u16,
    pub modulus: u32,
    pub breakingLoad: u32,
}

// A decoded sheet. Entries of an array behind its count are blank; an array beside its count is the form that the paper names, in fixed
// memory.
#[derive(Clone, Copy)]
pub struct Sheet {
    pub head: Head,
    pub tiers: [Tier; 10],
    pub ntiers: usize,
    pub door: [Lash; 8],
    pub ndoor: usize,
    pub closed: [Lash; 8],
    pub nclosed: usize,
}

// Whether a tier is exposed to the wind.
pub fn exposed(t: Tier) -> bool
    ensures { result ≡ exposed t }
{
    t.wind % 2 == 1
}

// Whether a tier's box stands turned, its closed end at the door end of the sheet.
pub fn turned(t: Tier) -> bool
    ensures { result ≡ turned t }
{
    t.wind / 2 == 1
}

// Why a sheet is turned back: a number of the table and its second number. No enum of its cases: the table's rows (`Row` of specs/Refusals)
// are numbers, those of later calls among them, and C gets the number.
#[derive(Clone, Copy)]
pub struct Refusal {
    pub number: u64,
    pub second: usize,
}

// A lash by its kind: a cross lash is on the lee corner, a side lash on the windward corner.
#[derive(Clone, Copy)]
pub enum Lashing {
    Cross(Lash),
    Side(Lash),
}

pub fn lashing_of(l: Lash) -> Lashing
    ensures { result ≡ lashing_of l }
{
    if l.kind == 0 {
        return Lashing::Cross(l);
    }
    Lashing::Side(l)
}

// Route factor percents (CR 5.2.4(c)).
pub const ROUTE_PERCENT: [u64; 13] = [100, 87, 96, 95, 94, 100, 95, 73, 86, 90, 90, 73, 87];

pub fn route_percent(route: u8) -> u64
    requires { route < 13 }
    ensures { (result ≡ route_percent route) × (73 ≤ result) × (result ≤ 100) }
{
    ROUTE_PERCENT[route as usize]
}
