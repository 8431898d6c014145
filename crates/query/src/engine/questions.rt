// What a query tells of itself.
ghost use Rattle.std.specs.Prelude.{◌≡◌};
ghost use Rattle.receipts.specs.Queries.{closed_time, cti_of, held_of, asked};
ghost use Rattle.query.specs.Queries.{setup, state};

use crate::engine::Query;
use refusals::fault::Side;
use rows::payload::Payload;
use stores::store::Store;

// Questions of a side have two arms: the inputs are of two types.
impl<L: Payload, R: Payload, S: Store, T: Store> Query<L, R, S, T> {
    // The width of its windows.
    pub fn width(&self) -> u32
        ensures { result ≡ (setup self.now).width }
    {
        self.width
    }

    // The end of the last window that was closed, 0 at first.
    pub fn closed_time(&self) -> u32
        ensures { result ≡ asked (state self.now) closed_time }
    {
        self.closed
    }

    // The CTI of a side, 0 at first.
    pub fn cti(&self, side: Side) -> u32
        ensures { result ≡ asked (state self.now) (cti_of side) }
    {
        match side {
            Side::Left => self.left.cti(),
            Side::Right => self.right.cti(),
        }
    }

    // How many rows a side holds.
    pub fn held(&self, side: Side) -> usize
        ensures { result ≡ asked (state self.now) (held_of side) }
    {
        match side {
            Side::Left => self.left.held(),
            Side::Right => self.right.held(),
        }
    }
}
