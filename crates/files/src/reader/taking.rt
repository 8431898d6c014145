// Reading a file one event at a time.
ghost use Rattle.std.specs.Prelude.{◌≡◌, ◌<◌, ◌≤◌, List, [], length, drop, MatchOption, refl};
ghost use Rattle.files.specs.Reading.{one_of, one_as, file_stream, Told, Sound};
ghost use Rattle.files.specs.Readers.{reader_stream};

use crate::form::Form;
use crate::judging::event_of;
use crate::reader::{LONGEST, Reader, State};
use refusals::fault::Fault;
use refusals::refusal::Refusal;
use rows::event::Event;
use rows::payload::Payload;
use sources::source::{Numbered, Source};
use std::marker::PhantomData;

// The event that the bytes begin with, and the bytes after it.
fn read_event<F: Form, P: Payload>(bytes: &[u8]) -> Result<(Event<P>, &[u8]), Refusal>
    ensures { one_as P.Payload.pair result ≡ one_of P.Payload.kind (F.Form.read bytes.now) }
{
    let (fields, after) = F::fields(bytes)?;
    let event = event_of(fields)?;
    Ok((event, after))
}

impl<'a, F: Form, P: Payload> Reader<'a, F, P> {
    // All events of a file, numbered from 1, each lawful. The file is read to its end, or to the first fault, which is told under
    // the number of its event.
    pub fn new(bytes: &'a [u8]) -> Reader<'a, F, P>
        ensures value { reader_stream F.Form.read P.Payload.kind result.state result.number (drop result.place result.bytes.now)
            ≡ file_stream F.Form.read P.Payload.kind bytes.now }
        ensures told { Told 1 (file_stream F.Form.read P.Payload.kind bytes.now) }
        ensures sound { Sound P.Payload.kind (file_stream F.Form.read P.Payload.kind bytes.now) }
    {
        if bytes.len() > LONGEST {
            let fault = Fault::at_event(Refusal::TooLong, 0, 1);
            return Reader {
                bytes: &bytes[0..0],
                place: 0,
                number: 1,
                state: State::Failed(fault),
                form: PhantomData,
                kind: PhantomData,
            };
        }
        Reader {
            bytes,
            place: 0,
            number: 1,
            state: State::Reading,
            form: PhantomData,
            kind: PhantomData,
        }
    }

    // What is left of the file; None at its end.
    fn next(&self) -> Option<&'a [u8]>
        ensures { MatchOption result (length self.now.bytes.now ≤ self.now.place)
            (λ left. (self.now.place < length self.now.bytes.now)
            × (left.now ≡ drop self.now.place self.now.bytes.now)) }
    {
        if self.place < self.bytes.len() {
            Some(&self.bytes[self.place..])
        } else {
            None
        }
    }
}

impl<'a, F: Form, P: Payload> Source for Reader<'a, F, P> {
    type Payload = P;

    ghost stream = { λ s. reader_stream F.Form.read P.Payload.kind s.state s.number (drop s.place s.bytes.now) };

    ghost foot = { λ s. reader_stream F.Form.read P.Payload.kind s.state s.number (drop s.place s.bytes.now) };

    ghost rules = { λ _. [] };

    ghost keep = { λ _. tt };

    ghost piled = { λ _. refl };

    fn take(&mut self) -> Result<Option<Numbered<P>>, Fault> {
        match (self.state, self.next()) {
            (State::Reading, Some(left)) => match read_event::<F, P>(left) {
                Ok((event, after)) => {
                    let number = self.number;
                    self.place = self.bytes.len() - after.len();
                    self.number = number + 1;
                    Ok(Some(Numbered { number, event }))
                }
                Err(refusal) => {
                    let fault = Fault::at_event(refusal, 0, self.number);
                    self.state = State::Failed(fault);
                    Err(fault)
                }
            },
            (State::Reading, None) => {
                self.state = State::Ended;
                Ok(None)
            }
            (State::Ended, _) => Ok(None),
            (State::Failed(fault), _) => Err(fault),
        }
    }

    fn depth(&self) -> u32 {
        0
    }
}
