// All that a source gives.
ghost use Rattle.std.specs.Prelude.{◌≡◌, IfOk};
ghost use Rattle.packing.specs.Collecting.{collected_as, collected};

use refusals::fault::Fault;
use rows::event::Event;
use rows::payload::Payload;
use sources::source::Source;
use std::alloc::{AllocError, Global};

// The events of a source, or the fault that it ends with.
// Want of memory stands outside: a caller passes it on by `?`, and matches on what the source told.
pub fn collect<P: Payload, S: Source<Payload = P> + Drop>(
    heap: Global,
    mut source: S,
) -> Result<Result<Vec<Event<P>>, Fault>, AllocError>
    ensures { IfOk result (λ all. collected_as P.Payload.pair all ≡ collected (S.Source.stream source)) }
{
    let mut events = Vec::new(heap);
    loop {
        match source.take() {
            Ok(Some(next)) => events.push(next.event)?,
            Ok(None) => return Ok(Ok(events)),
            Err(fault) => return Ok(Err(fault)),
        }
    }
}
