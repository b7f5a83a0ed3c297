// The answer buffer: filled before a check, so that a byte that it should not have written shows.
ghost use Rattle.std.specs.Prelude.{map, ◌≡◌, drop};
ghost use Rattle.arith.specs.Lists.{below};
ghost use Rattle.cases.specs.Inner.Marks.{mark_of, all_marked};

use std::array;

// 1,024 bytes, each with the mark of its place.
pub fn filled() -> [u8; 1024]
    ensures { result ≡ map mark_of (below 1024) }
{
    array::from_fn(mark)
}

// Whether every byte from the index `from` on has the mark of its place.
pub fn untouched(buffer: &[u8], from: usize) -> bool
    ensures { result ≡ all_marked from (drop from buffer.now) }
{
    (from..buffer.len()).all(|i| buffer[i] == mark(i))
}

// 200 to 250, by turns.
fn mark(i: usize) -> u8
    ensures { result ≡ mark_of i }
{
    (200 + i % 51) as u8
}
