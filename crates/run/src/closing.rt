// The closings that follow an accepted CTI: each writes its lines and its window record on after the one before.
ghost use Rattle.std.specs.Prelude.{◌≡◌, ◌+◌, ◌-◌, ◌≤◌, Bool, true, List, length, take, drop};
ghost use Rattle.refusals.specs.declared.fault.Fault.{Fault};
ghost use Rattle.refusals.specs.declared.refusal.Refusal.{Refusal};
ghost use Rattle.receipts.specs.Histories.{Entry};
ghost use Rattle.receipts.specs.Queries.{closing, may_close};
ghost use Rattle.receipts.specs.Sides.{Both};
ghost use Rattle.query.specs.Answers.{lines_told};
ghost use Rattle.query.specs.Queries.{setup, state, calls};
ghost use Rattle.run_laws.specs.Runs.{closings};
ghost use Rattle.run.specs.States.{places, standing};
ghost use Rattle.run.specs.Closings.{Fits, Onward, closing_told_from, Counts, closed_turn, all_closed_turn};

use crate::turning::Run;
use query::engine::Query;
use receipts::line::Line;
use receipts::window::Window;
use refusals::fault::Fault;
use refusals::refusal::Refusal;
use rows::payload::Payload;
use stores::store::Store;

// How many lines and how many window records are written. They go into the caller's slices, so how far they are written
// stands beside them.
#[derive(Clone, Copy, Default)]
pub struct Written {
    pub lines: usize,
    pub windows: usize,
}

// Closes the next window, and writes its lines from a place on.
#[tactic(auto, using(crate::proofs::Slices::behind_kept, std::proofs::lemmas::Slice::between_to_end))]
fn close_from<L: Payload, R: Payload, S: Store, T: Store>(
    query: &mut Query<L, R, S, T>,
    lines: &mut [Line],
    from: usize,
) -> Result<Window, Fault>
    requires { from ≤ length lines.old }
    ensures call { calls query.old (closing (length lines.old - from)) (closing_told_from from result lines.new) query.new }
    ensures earlier { take from lines.new ≡ take from lines.old }
    ensures later { drop (from + lines_told result) lines.new ≡ drop (from + lines_told result) lines.old }
{
    query.close(&mut lines[from..])
}

impl<L: Payload, R: Payload, S: Store, T: Store> Run<L, R, S, T> {
    // Closes once, where closing is allowed: WindowsFull where there is no place for the window record, else LinesFull where
    // there are too few for the lines. A refused closing writes nothing.
    #[tactic(auto, using(crate::proofs::CloseOnce::closes_on))]
    fn close_once(&mut self, lines: &mut [Line], windows: &mut [Window]) -> Result<(), Refusal>
        requires due { may_close (setup self.old.query) (state self.old.query) ≡ true }
        requires fits { Fits self.old.written lines.old windows.old }
        ensures value { (rest : Both (List Entry)) (over : Both Bool) (blame : Refusal → Fault) →
            closed_turn (setup self.old.query) (places lines.old windows.old) blame (length windows.old - self.new.written.windows)
            (standing (state self.new.query) rest over lines.new windows.new self.new.written) result
            ≡ closings (setup self.old.query) (places lines.old windows.old) blame (length windows.old - self.old.written.windows)
            (standing (state self.old.query) rest over lines.old windows.old self.old.written) }
        ensures count { Counts self.old.written self.new.written result }
        ensures over { self.new.over ≡ self.old.over }
        ensures onward { Onward self.old.query self.old.written lines.old windows.old self.new.query self.new.written lines.new windows.new }
    {
        if windows.len() <= self.written.windows {
            return Err(Refusal::WindowsFull);
        }
        let window = close_from(&mut self.query, lines, self.written.lines).map_err(
            |fault| fault.refusal,
        )?;
        windows[self.written.windows] = window;
        self.written.lines += window.lines;
        self.written.windows += 1;
        Ok(())
    }

    // Closes until closing is not allowed, or a closing is refused.
    #[tactic(auto, using(crate::proofs::Slices::kept_further, crate::proofs::CloseOnce::closings_none, crate::proofs::CloseOnce::closings_moved))]
    pub fn close_all(&mut self, lines: &mut [Line], windows: &mut [Window]) -> Result<(), Refusal>
        requires { Fits self.old.written lines.old windows.old }
        ensures value { (rest : Both (List Entry)) (over : Both Bool) (blame : Refusal → Fault) →
            all_closed_turn blame (standing (state self.new.query) rest over lines.new windows.new self.new.written) result
            ≡ closings (setup self.old.query) (places lines.old windows.old) blame (length windows.old - self.old.written.windows)
            (standing (state self.old.query) rest over lines.old windows.old self.old.written) }
        ensures over { self.new.over ≡ self.old.over }
        ensures onward { Onward self.old.query self.old.written lines.old windows.old self.new.query self.new.written lines.new windows.new }
    {
        while self.query.may_close() {
            self.close_once(lines, windows)?;
        }
        Ok(())
    }
}
