// A turn of a run: the side that is next takes an event or its ending, and closings follow an accepted CTI.
ghost use Rattle.std.specs.Prelude.{◌≡◌, true, false, ◌&&◌};
ghost use Rattle.receipts.specs.Sides.{put};
ghost use Rattle.joining.specs.Guards.{both};
ghost use Rattle.query.specs.Queries.{setup, state};
ghost use Rattle.run_laws.specs.Runs.{RunState, Report, continued, next_side, turn};
ghost use Rattle.run_laws.proofs.TurnsLeft.{turns_left};
ghost use Rattle.run.specs.Closings.{Fits, Onward};
ghost use Rattle.run.specs.States.{places};
ghost use Rattle.run.specs.Turns.{sides, nothing_left, entries_of, stands, shallows, tails, turned, Spends};

use crate::closing::Written;
use crate::feeding::{Step, feed};
use query::engine::Query;
use receipts::line::Line;
use receipts::window::Window;
use refusals::fault::{Fault, Side};
use rows::payload::Payload;
use sources::source::Source;
use stores::store::Store;

// Which sources have ended.
#[derive(Clone, Copy, Default)]
pub struct Over {
    pub left: bool,
    pub right: bool,
}

impl Over {
    // Whether both have.
    pub fn both(self) -> bool
        ensures { result ≡ (self.left && self.right) }
    {
        self.left && self.right
    }

    fn end(&mut self, side: Side)
        ensures { sides self.new ≡ put side true (sides self.old) }
    {
        match side {
            Side::Left => self.left = true,
            Side::Right => self.right = true,
        }
    }
}

// Where a run stands: its query, which sources have ended, and what is written. The sources and the slices are handed to
// each call: a struct that held them by `&mut` would have to say of each call what it is lent. Hence each call
// says that what is written fits the slices.
#[derive(Drop)]
pub struct Run<L: Payload, R: Payload, S: Store, T: Store> {
    pub query: Query<L, R, S, T>,
    pub over: Over,
    pub written: Written,
}

impl<L: Payload, R: Payload, S: Store, T: Store> Run<L, R, S, T> {
    // The side that is taken from next: the left where it has not ended and either the right has, or the left CTI is not
    // above the right one.
    fn next_side(&self) -> Side
        ensures { result ≡ next_side (nothing_left (state self.now.query) (sides self.now.over)) }
    {
        if !self.over.left
            && (self.over.right || self.query.cti(Side::Left) <= self.query.cti(Side::Right))
        {
            Side::Left
        } else {
            Side::Right
        }
    }

    // A turn, where a source has not ended yet.
    pub fn take_turn<A: Source<Payload = L>, B: Source<Payload = R>>(
        &mut self,
        left: &mut A,
        right: &mut B,
        lines: &mut [Line],
        windows: &mut [Window],
    ) -> Result<(), Fault>
        requires unended { (self.old.over.left && self.old.over.right) ≡ false }
        requires fits { Fits self.old.written lines.old windows.old }
        ensures value { (go : RunState → Report) →
            continued (turned (stands self.new (both (A.Source.stream left.new) (B.Source.stream right.new)) lines.new windows.new) result) go
            ≡ continued (turn (setup self.old.query) (places lines.old windows.old)
            (shallows (both (A.Source.stream left.old) (B.Source.stream right.old)))
            (stands self.old (both (A.Source.stream left.old) (B.Source.stream right.old)) lines.old windows.old)) go }
        ensures spent { Spends result
            (turns_left (entries_of (both (A.Source.stream left.new) (B.Source.stream right.new))) (sides self.new.over))
            (turns_left (entries_of (both (A.Source.stream left.old) (B.Source.stream right.old))) (sides self.old.over)) }
        ensures ends { tails (both (A.Source.stream left.new) (B.Source.stream right.new))
            ≡ tails (both (A.Source.stream left.old) (B.Source.stream right.old)) }
        ensures onward { Onward self.old.query self.old.written lines.old windows.old self.new.query self.new.written lines.new windows.new }
    {
        let side = self.next_side();
        match feed(&mut self.query, left, right, side)? {
            Step::Ended => {
                self.over.end(side);
                Ok(())
            }
            Step::Accepted => Ok(()),
            Step::Advanced(place) => {
                self.close_all(lines, windows)
                    .map_err(|why| place.run_fault(side, why))
            }
        }
    }
}
