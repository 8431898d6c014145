// A new query.
ghost use Rattle.std.specs.Prelude.{◌≡◌};
ghost use Rattle.query.specs.Queries.{setting, opened, opens};

use crate::engine::{Query, WIDEST};
use crate::input::Input;
use refusals::fault::Fault;
use refusals::refusal::Refusal;
use rows::payload::Payload;
use stores::store::Store;

impl<L: Payload, R: Payload, S: Store, T: Store> Query<L, R, S, T> {
    // A query with windows of a width, or BadWidth: closed time and CTIs 0, and no rows.
    // The width's limits are those of windows, refused under their own number; the limits of rules are a type, `Seconds`.
    pub fn new(width: u32) -> Result<Query<L, R, S, T>, Fault>
        ensures { opened result
            ≡ opens (setting L.Payload.kind R.Payload.kind S.Store.CAPACITY T.Store.CAPACITY width) }
    {
        if width < 1 || width > WIDEST {
            return Err(Refusal::BadWidth.into());
        }
        Ok(Query {
            width,
            closed: 0,
            left: Input::new(),
            right: Input::new(),
        })
    }
}
