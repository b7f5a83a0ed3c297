// The fields and entries of a sheet, read from its bytes.

#![tactic(auto)]

ghost use Rattle.std.specs.Prelude.{Ok, ◌≡◌, ◌+◌, ◌*◌, ◌<◌, ◌≤◌, length};
ghost use Rattle.arith.specs.Bytes.{le2, le4, byte_at};
ghost use Rattle.sheet.specs.Layout.{head_of, tier_of, lash_of, tier_place, lash_place, door_place, closed_place, spare_place};
ghost use Rattle.sheet.specs.Layout.{tiers_in, lashes_in, sheet_of, blank_tier, blank_lash};
ghost use Rattle.sheet.specs.Inner.Blank.{blank_sheet};
ghost use Rattle.sheet.specs.Refusals.{first, sheet_rows};
ghost use Rattle.sheet.specs.Inner.Changed.{with_tiers};

use arith::bytes::{read1, read2, read4};
use sheet::{Head, Lash, Sheet, Tier};

// The byte at `at`, 0 past the end.
pub fn byte_at(s: &[u8], at: usize) -> u64
    ensures { (result ≡ byte_at s.now at) × (result < 256) }
{
    if at < s.len() {
        return read1(s, at);
    }
    0
}

// A field of one byte, of two and of four, each at its own width.
pub fn field1(s: &[u8], at: usize) -> u8
    requires { at < length s.now }
    ensures { result ≡ byte_at s.now at }
{
    s[at]
}

fn field2(s: &[u8], at: usize) -> u16
    requires { at + 2 ≤ length s.now }
    ensures { result ≡ le2 s.now at }
{
    read2(s, at) as u16
}

fn field4(s: &[u8], at: usize) -> u32
    requires { at + 4 ≤ length s.now }
    ensures { result ≡ le4 s.now at }
{
    read4(s, at) as u32
}

pub fn head_of(s: &[u8]) -> Head
    requires { 8 ≤ length s.now }
    ensures { result ≡ head_of s.now }
{
    Head {
        rule: field1(s, 0),
        route: field1(s, 1),
        lockMaterial: field1(s, 2),
        zero: field1(s, 3),
        lockBreakingLoad: field4(s, 4),
    }
}

pub fn tier_of(s: &[u8], at: usize) -> Tier
    requires { at + 12 ≤ length s.now }
    ensures { result ≡ tier_of s.now at }
{
    Tier {
        size: field1(s, at),
        wind: field1(s, at + 1),
        height: field2(s, at + 2),
        mass: field2(s, at + 4),
        aT: field2(s, at + 6),
        aVmax: field2(s, at + 8),
        aVmin: field2(s, at + 10),
    }
}

pub fn lash_of(s: &[u8], at: usize) -> Lash
    requires { at + 20 ≤ length s.now }
    ensures { result ≡ lash_of s.now at }
{
    Lash {
        tier: field1(s, at),
        hook: field1(s, at + 1),
        kind: field1(s, at + 2),
        material: field1(s, at + 3),
        lx: field2(s, at + 4),
        ly: field2(s, at + 6),
        lz: field2(s, at + 8),
        area: field2(s, at + 10),
        modulus: field4(s, at + 12),
        breakingLoad: field4(s, at + 16),
    }
}

// Where the door end's count, the closed end's count and the first spare byte stand.
pub fn door_place(s: &[u8]) -> usize
    ensures { (result ≡ door_place s.now) × (result < 4000) }
{
    9 + 12 * (byte_at(s, 8) as usize)
}

pub fn closed_place(s: &[u8]) -> usize
    ensures { (result ≡ closed_place s.now) × (result < 10000) }
{
    let door = door_place(s);
    door + 1 + 20 * (byte_at(s, door) as usize)
}

pub fn spare_place(s: &[u8]) -> usize
    ensures { result ≡ spare_place s.now }
{
    let closed = closed_place(s);
    closed + 1 + 20 * (byte_at(s, closed) as usize)
}

pub fn blank_tier() -> Tier
    ensures { result ≡ blank_tier }
{
    Tier {
        size: 0,
        wind: 0,
        height: 0,
        mass: 0,
        aT: 0,
        aVmax: 0,
        aVmin: 0,
    }
}

pub fn blank_lash() -> Lash
    ensures { result ≡ blank_lash }
{
    Lash {
        tier: 0,
        hook: 0,
        kind: 0,
        material: 0,
        lx: 0,
        ly: 0,
        lz: 0,
        area: 0,
        modulus: 0,
        breakingLoad: 0,
    }
}

pub fn blank_sheet() -> Sheet
    ensures { result ≡ blank_sheet }
{
    Sheet {
        head: Head {
            rule: 0,
            route: 0,
            lockMaterial: 0,
            zero: 0,
            lockBreakingLoad: 0,
        },
        tiers: [blank_tier(); 10],
        ntiers: 0,
        door: [blank_lash(); 8],
        ndoor: 0,
        closed: [blank_lash(); 8],
        nclosed: 0,
    }
}

// Tiers and lashes are read by a loop each. A generic one over what reads an entry would be no plainer: its contract would need the entry
// as a function beside the closure.

// The first n tiers.
fn tiers_of(s: &[u8], n: usize) -> [Tier; 10]
    requires { (n ≤ 10) × (tier_place n ≤ length s.now) }
    ensures { result ≡ tiers_in s.now n }
{
    let mut tiers = [blank_tier(); 10];
    for k in 0..n {
        tiers[k] = tier_of(s, 9 + 12 * k);
    }
    tiers
}

// The first n lashes of an end whose count stands at `at`.
pub fn lashes_of(s: &[u8], at: usize, n: usize) -> [Lash; 8]
    requires { (n ≤ 8) × (lash_place at n ≤ length s.now) }
    ensures { result ≡ lashes_in s.now at n }
{
    let mut lashes = [blank_lash(); 8];
    for k in 0..n {
        lashes[k] = lash_of(s, at + 1 + 20 * k);
    }
    lashes
}

// The tiers of a taken sheet.
pub fn own_tiers(s: &[u8]) -> [Tier; 10]
    requires { first (sheet_rows s.now) ≡ Ok tt }
    ensures { result ≡ (sheet_of s.now).tiers }
{
    tiers_of(s, byte_at(s, 8) as usize)
}

// What a taken sheet holds, with these tiers in place of its own.
pub fn sheet_with(s: &[u8], tiers: [Tier; 10]) -> Sheet
    requires { first (sheet_rows s.now) ≡ Ok tt }
    ensures { result ≡ with_tiers tiers (sheet_of s.now) }
{
    let n = byte_at(s, 8) as usize;
    let door = door_place(s);
    let ndoor = byte_at(s, door) as usize;
    let closed = closed_place(s);
    let nclosed = byte_at(s, closed) as usize;
    Sheet {
        head: head_of(s),
        tiers: tiers,
        ntiers: n,
        door: lashes_of(s, door, ndoor),
        ndoor: ndoor,
        closed: lashes_of(s, closed, nclosed),
        nclosed: nclosed,
    }
}

// What a sheet holds that no row of the table turns back. Not by sheet_with: each has one caller, so the compiler puts both into theirs,
// and copies no sheet.
pub fn sheet_of(s: &[u8]) -> Sheet
    requires { first (sheet_rows s.now) ≡ Ok tt }
    ensures { result ≡ sheet_of s.now }
{
    let ntiers = byte_at(s, 8) as usize;
    let door = door_place(s);
    let ndoor = byte_at(s, door) as usize;
    let closed = closed_place(s);
    let nclosed = byte_at(s, closed) as usize;
    Sheet {
        head: head_of(s),
        tiers: tiers_of(s, ntiers),
        ntiers: ntiers,
        door: lashes_of(s, door, ndoor),
        ndoor: ndoor,
        closed: lashes_of(s, closed, nclosed),
        nclosed: nclosed,
    }
}
