// A case, cut from the front of the input.
ghost use Rattle.std.specs.Prelude.{◌≡◌, ◌↔◌, IsSome, IfSome, IfNone};
ghost use Rattle.cases.specs.Inner.Places.{IsWhole, IsCase};

use arith::bytes;

// A name, a sheet and its fields, and the length of the answer buffer.
#[derive(Clone, Copy)]
pub struct Case<'a> {
    pub name: &'a [u8],
    pub sheet: &'a [u8],
    pub fields: &'a [u8],
    pub room: usize,
}

// Takes the case at the front of the input, if all of it is there and its answer buffer at most 1,024 bytes; else the input stays whole.
pub fn next<'a>(input: &mut &'a [u8]) -> Option<Case<'a>>
    ensures whole { IsSome result ↔ IsWhole input.old.now }
    ensures case { IfSome result (λ c. IsCase input.old.now c input.new.now) }
    ensures kept { IfNone result (input.new ≡ input.old) }
{
    let mut rest = *input;
    let head = rest.split_off(..7)?;
    let room = bytes::read2(head, 3) as usize;
    let name = rest.split_off(..bytes::read1(head, 0) as usize)?;
    let sheet = rest.split_off(..bytes::read2(head, 1) as usize)?;
    let fields = rest.split_off(..9 * bytes::read2(head, 5) as usize)?;
    if room > 1024 {
        return None;
    }
    *input = rest;
    Some(Case {
        name,
        sheet,
        fields,
        room,
    })
}
