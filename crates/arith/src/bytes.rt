// Numbers read from bytes and written to them, the least significant byte first.

ghost use Rattle.std.specs.Prelude.{◌≡◌, ◌∷◌, [], ◌+◌, ◌<◌, ◌≤◌, length, get_or};
ghost use Rattle.std.proofs.lemmas.List.Edits.{sets};
ghost use Rattle.arith.specs.Bytes.{le2, le4, bytes2, bytes4, twos};

// A byte as a number.
pub fn wide(x: u8) -> u64
    ensures { (result ≡ x) × (result < 256) }
{
    x as u64
}

pub fn read1(s: &[u8], at: usize) -> u64
    requires { at < length s.now }
    ensures { (result ≡ get_or s.now at 0) × (result < 256) }
{
    wide(s[at])
}

pub fn read2(s: &[u8], at: usize) -> u64
    requires { at + 2 ≤ length s.now }
    ensures { (result ≡ le2 s.now at) × (result < 65536) }
{
    u64::from(u16::from_le_bytes([s[at], s[at + 1]]))
}

pub fn read4(s: &[u8], at: usize) -> u64
    requires { at + 4 ≤ length s.now }
    ensures { (result ≡ le4 s.now at) × (result < 4294967296) }
{
    u64::from(u32::from_le_bytes([s[at], s[at + 1], s[at + 2], s[at + 3]]))
}

pub fn write1(buf: &mut [u8], at: usize, v: u64)
    requires { (at < length buf.old) × (v < 256) }
    ensures { buf.new ≡ sets buf.old at (v ∷ []) }
{
    buf[at] = v as u8;
}

// The lowest two bytes of a number.
pub fn write2(buf: &mut [u8], at: usize, v: u64)
    requires { at + 2 ≤ length buf.old }
    ensures { buf.new ≡ sets buf.old at (bytes2 v) }
{
    let bytes = ((v % 65536) as u16).to_le_bytes();
    buf[at..at + 2].copy_from_slice(&bytes);
}

pub fn write4(buf: &mut [u8], at: usize, v: u64)
    requires { (at + 4 ≤ length buf.old) × (v < 4294967296) }
    ensures { buf.new ≡ sets buf.old at (bytes4 v) }
{
    let bytes = (v as u32).to_le_bytes();
    buf[at..at + 4].copy_from_slice(&bytes);
}

// The 32 bits of a signed number, as a number.
pub fn bits(x: i32) -> u64
    ensures { (result ≡ twos x) × (result < 4294967296) }
{
    u64::from(x.cast_unsigned())
}

pub fn write_signed(buf: &mut [u8], at: usize, x: i32)
    requires { at + 4 ≤ length buf.old }
    ensures { buf.new ≡ sets buf.old at (bytes4 (twos x)) }
{
    write4(buf, at, bits(x));
}
