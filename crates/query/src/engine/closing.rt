// Closing the next window.
ghost use Rattle.std.specs.Prelude.{◌≡◌, ◌≤◌, true, length, drop};
ghost use Rattle.receipts.specs.Queries.{closing, window_end, may_close};
ghost use Rattle.query.specs.Answers.{closing_told, lines_told};
ghost use Rattle.query.specs.Queries.{setup, state, calls};

use crate::engine::Query;
use joining::handing::hand_out;
use receipts::line::Line;
use receipts::window::Window;
use refusals::fault::Fault;
use refusals::refusal::Refusal;
use rows::payload::Payload;
use stores::store::Store;

impl<L: Payload, R: Payload, S: Store, T: Store> Query<L, R, S, T> {
    // Whether a closing is allowed: neither CTI is below the next window's end, which is then a finite time.
    pub fn may_close(&self) -> bool
        ensures value { result ≡ may_close (setup self.now) (state self.now) }
        ensures finite { result ≡ true → window_end (setup self.now) (state self.now) ≤ 4000000000 }
    {
        self.closed + self.width <= self.left.cti().min(self.right.cti())
    }

    // Closes the next window: writes its lines over the first places, and purges the rows that end below its end. NotYet
    // where a CTI is below that end, LinesFull where there are more lines than places. A refused closing changes nothing.
    pub fn close(&mut self, lines: &mut [Line]) -> Result<Window, Fault>
        ensures call { calls self.old (closing (length lines.old)) (closing_told result lines.new) self.new }
        ensures later { drop (lines_told result) lines.new ≡ drop (lines_told result) lines.old }
    {
        if !self.may_close() {
            return Err(Refusal::NotYet.into());
        }
        let start = self.closed;
        let end = start + self.width;
        let tally = hand_out::<L, R, S, T>(
            self.left.store(),
            self.right.store(),
            start,
            end,
            lines,
        )?;
        let left = self.left.purge(end);
        let right = self.right.purge(end);
        self.closed = end;
        Ok(Window {
            start,
            end,
            count: tally.count,
            lines: tally.lines,
            purged_left: left.count,
            purged_right: right.count,
        })
    }
}
