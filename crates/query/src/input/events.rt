// What an input does with an event.
ghost use Rattle.std.specs.Prelude.{◌≡◌, true, []};
ghost use Rattle.receipts.specs.Queries.{retracts, with_held, stored, taken, event_refused, event_answer};
ghost use Rattle.receipts.specs.Stores.{found};
ghost use Rattle.rows.specs.Events.{plain_event, timely};
ghost use Rattle.rows.specs.Rows.{plain_of};
ghost use Rattle.query.specs.Halves.{half_outcome};
ghost use Rattle.query.specs.Answers.{event_told};

use crate::input::Input;
use refusals::fault::{Fault, Side};
use refusals::refusal::Refusal;
use rows::event::Event;
use rows::payload::Payload;
use rows::row::Row;
use stores::store::Store;

// The fault of a refused event: its side and, where the CTI is violated, that CTI.
fn event_fault(side: Side, cti: u32, why: Refusal) -> Fault
    ensures { result ≡ event_refused side (record { cti = cti; held = [] }) why }
{
    Fault {
        side: Some(side),
        cti: (why == Refusal::CtiViolated).then_some(cti),
        ..why.into()
    }
}

impl<P: Payload, S: Store> Input<P, S> {
    // Moves the end of the row that a retraction names, or takes the row away where the new end is its start. The held
    // row of that id has to equal it in every number.
    fn retract(&mut self, row: Row<P>, new_end: u32) -> Result<(), Refusal>
        ensures { half_outcome result self.new
            ≡ with_held self.old
            (retracts (plain_of P.Payload.pair row) new_end
            (found row.id self.old.held) self.old.held) }
    {
        let held = self.store.get(row.id).ok_or(Refusal::NoSuchRow)?;
        if held != row.plain() {
            return Err(Refusal::OtherRow);
        }
        if new_end == row.span.start() {
            self.store.remove(row.id)
        } else {
            self.store.set_end(row.id, new_end)
        }
    }

    // Brings an event whose times are lawful into the input.
    fn apply(&mut self, event: Event<P>) -> Result<(), Refusal>
        requires { timely (plain_event P.Payload.pair event) ≡ true }
        ensures { half_outcome result self.new
            ≡ stored S.Store.CAPACITY (plain_event P.Payload.pair event) self.old }
    {
        match event {
            Event::Insert(row) => self
                .store
                .add(row.id, row.span, row.payload.key(), row.payload.value()),
            Event::Retraction { row, new_end } => self.retract(row, new_end),
            Event::Cti(time) => {
                self.cti = time;
                Ok(())
            }
        }
    }

    // Takes an event, or tells why not: of several refusals the one with the smallest number. A payload is in its kind's
    // range, so it is never refused.
    fn accept(&mut self, event: Event<P>) -> Result<(), Refusal>
        ensures { half_outcome result self.new
            ≡ taken P.Payload.kind S.Store.CAPACITY (plain_event P.Payload.pair event) self.old }
    {
        event.judge_times()?;
        if event.sync() < self.cti {
            return Err(Refusal::CtiViolated);
        }
        self.apply(event)
    }

    // Takes an event of a side, or tells the fault. A refused event changes nothing.
    pub fn take(&mut self, side: Side, event: Event<P>) -> Result<(), Fault>
        ensures answer { event_told result ≡ event_answer side self.old
            (taken P.Payload.kind S.Store.CAPACITY (plain_event P.Payload.pair event) self.old).answer }
        ensures after { self.new
            ≡ (taken P.Payload.kind S.Store.CAPACITY (plain_event P.Payload.pair event) self.old).after }
    {
        let cti = self.cti;
        self.accept(event)
            .map_err(|why| event_fault(side, cti, why))
    }
}
