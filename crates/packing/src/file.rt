// Packing a whole file.
ghost use Rattle.std.specs.Prelude.{◌≡◌, IfOk, MatchResult};
ghost use Rattle.packing.specs.Packing.{packed_as, packed, Means};

use crate::collecting::collect;
use binary::writer::write;
use files::reader::Reader;
use refusals::fault::{Fault, Side};
use rows::payload::Payload;
use std::alloc::{AllocError, Global};
use text::form::Text;

// How many events were packed into how many bytes.
#[derive(Clone, Copy)]
pub struct Packed {
    pub events: usize,
    pub bytes: usize,
}

// Writes the events of a text file in binary from the front of the slice. The bytes are the only binary file that is read as the
// text file is. A fault, of the text or for want of places, is told on the side, and then nothing is written.
pub fn pack<P: Payload>(
    heap: Global,
    side: Side,
    text: &[u8],
    out: &mut [u8],
) -> Result<Result<Packed, Fault>, AllocError>
    ensures value { MatchResult result
        (λ p. (packed_as p, out.new) ≡ packed side P.Payload.kind text.now out.old)
        (λ _. out.new ≡ out.old) }
    ensures exact { IfOk result (λ p. Means P.Payload.kind text.now p out.new) }
{
    let reader: Reader<Text, P> = Reader::new(text);
    // A match, since two things may go wrong: want of memory goes on by `?`, and the text's fault is an answer.
    let events = match collect(heap, reader)? {
        Ok(events) => events,
        Err(fault) => return Ok(Err(fault.on_side(side))),
    };
    let count = events.len();
    let packed = write(events.as_slice(), out)
        .map(move |bytes| Packed {
            events: count,
            bytes,
        })
        .map_err(move |why| Fault::from(why).on_side(side));
    Ok(packed)
}
