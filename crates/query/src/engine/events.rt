// Events of both sides.
ghost use Rattle.std.specs.Prelude.{◌≡◌};
ghost use Rattle.refusals.specs.declared.fault.Side.TheVariants.{Left, Right};
ghost use Rattle.rows.specs.Events.{plain_event};
ghost use Rattle.receipts.specs.Queries.{event as event_call};
ghost use Rattle.query.specs.Answers.{event_told};
ghost use Rattle.query.specs.Queries.{calls};

use crate::engine::Query;
use refusals::fault::{Fault, Side};
use rows::event::Event;
use rows::payload::Payload;
use stores::store::Store;

// One line for each side: their events are of two types, so the side cannot be an argument.
impl<L: Payload, R: Payload, S: Store, T: Store> Query<L, R, S, T> {
    // Takes an event of the left side, or tells the fault, on that side. A refused event changes nothing.
    pub fn left_event(&mut self, event: Event<L>) -> Result<(), Fault>
        ensures { calls self.old (event_call Left (plain_event L.Payload.pair event)) (event_told result) self.new }
    {
        self.left.take(Side::Left, event)
    }

    // Takes an event of the right side, or tells the fault, on that side. A refused event changes nothing.
    pub fn right_event(&mut self, event: Event<R>) -> Result<(), Fault>
        ensures { calls self.old (event_call Right (plain_event R.Payload.pair event)) (event_told result) self.new }
    {
        self.right.take(Side::Right, event)
    }
}
