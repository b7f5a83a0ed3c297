// An answer held to the fields of its case.
ghost use Rattle.std.specs.Prelude.{◌+◌, ◌/◌, ◌≤◌, ◌≡◌, length, IfSome};
ghost use Rattle.cases.specs.Inner.Fields.{size_if, size_within, held_from};

use arith::bytes;

// Holds the answer, the first n bytes of the buffer, to the fields, of 9 bytes each; an error is the place where it first differs.
pub fn hold(fields: &[u8], buffer: &[u8], n: usize) -> Result<(), usize>
    ensures { result ≡ held_from buffer.now n (length fields.now / 9) fields.now 0 }
{
    let mut place = 0;
    for field in fields.chunks_exact(9) {
        let Some(size) = within(field, buffer, place) else {
            return Err(place);
        };
        place += size;
    }
    if place != n {
        return Err(place);
    }
    Ok(())
}

// The size of the number at `place`, if it is there and within the bounds of the field.
fn within(field: &[u8], buffer: &[u8], place: usize) -> Option<usize>
    requires { (9 ≤ length field.now) × (place ≤ length buffer.now) }
    ensures value { result ≡ size_within field.now buffer.now place }
    ensures there { IfSome result (λ size. place + size ≤ length buffer.now) }
{
    let size = bytes::read1(field, 0) as usize;
    let least = bytes::read4(field, 1);
    let most = bytes::read4(field, 5);
    if buffer.len() - place < size {
        return None;
    }
    match size {
        1 => size_if(size, bytes::read1(buffer, place), least, most),
        4 => size_if(size, bytes::read4(buffer, place), least, most),
        _ => None,
    }
}

// The size of a number x that is within its bounds.
fn size_if(size: usize, x: u64, least: u64, most: u64) -> Option<usize>
    ensures value { result ≡ size_if size x least most }
    ensures own { IfSome result (λ n. n ≤ size) }
{
    if least <= x && x <= most {
        Some(size)
    } else {
        None
    }
}
