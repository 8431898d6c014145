// Taking from a slice of events.
ghost use Rattle.std.specs.Prelude.{◌≡◌, List, [], refl};
ghost use Rattle.rewriting.specs.Layers.{pile};
ghost use Rattle.sources.specs.Listing.{left_stream, listed_stream};

use crate::listed::Listed;
use crate::source::{Numbered, Source};
use refusals::fault::Fault;
use rows::event::Event;
use rows::payload::Payload;

impl<'a, P: Payload> Listed<'a, P> {
    // All events of a slice, numbered from 1.
    pub fn new(events: &'a [Event<P>]) -> Listed<'a, P>
        ensures { left_stream P.Payload.pair result.rest.now result.taken ≡ listed_stream P.Payload.pair events.now 0 }
    {
        Listed {
            rest: events,
            taken: 0,
        }
    }
}

impl<'a, P: Payload> Source for Listed<'a, P> {
    type Payload = P;

    ghost stream = { λ s. left_stream P.Payload.pair s.rest.now s.taken };

    ghost foot = { λ s. left_stream P.Payload.pair s.rest.now s.taken };

    ghost rules = { λ _. [] };

    ghost keep = { λ _. tt };

    ghost piled = { λ _. refl };

    fn take(&mut self) -> Result<Option<Numbered<P>>, Fault> {
        let [event, rest @ ..] = self.rest else {
            return Ok(None);
        };
        self.rest = rest;
        self.taken += 1;
        Ok(Some(Numbered {
            number: self.taken,
            event: *event,
        }))
    }

    fn depth(&self) -> u32 {
        0
    }
}
