// A run over two sources.
ghost use Rattle.std.specs.Prelude.{◌≡◌, true, ◌&&◌};
ghost use Rattle.joining.specs.Guards.{both};
ghost use Rattle.query.specs.Queries.{setting, setup, state};
ghost use Rattle.run_laws.specs.Runs.{report, ran};
ghost use Rattle.run_laws.proofs.TurnsLeft.{turns_left};
ghost use Rattle.run.specs.Closings.{Later, Fits, Kept};
ghost use Rattle.run.specs.States.{places};
ghost use Rattle.run.specs.Turns.{sides, entries_of, stands, shallows};
ghost use Rattle.run.specs.Reports.{reported, report_of, lawful_width, run_or_refused};
ghost use Rattle.run.specs.Promise.{Promise};

use crate::closing::Written;
use crate::report::RunReport;
use crate::turning::{Over, Run};
use query::engine::Query;
use receipts::line::Line;
use receipts::window::Window;
use refusals::fault::{Fault, Side};
use rows::payload::Payload;
use sources::source::Source;
use stores::store::Store;

impl<L: Payload, R: Payload, S: Store, T: Store> Run<L, R, S, T> {
    // Turn after turn, until both sources have ended or a fault is met.
    #[tactic(auto, using(crate::proofs::Slices::kept_further, crate::proofs::RunsTurned::ran_over))]
    fn go<A: Source<Payload = L>, B: Source<Payload = R>>(
        &mut self,
        left: &mut A,
        right: &mut B,
        lines: &mut [Line],
        windows: &mut [Window],
    ) -> Result<(), Fault>
        requires { Fits self.old.written lines.old windows.old }
        ensures value { report (stands self.new (both (A.Source.stream left.new) (B.Source.stream right.new)) lines.new windows.new) result
            ≡ ran (setup self.old.query) (places lines.old windows.old)
            (shallows (both (A.Source.stream left.old) (B.Source.stream right.old)))
            (turns_left (entries_of (both (A.Source.stream left.old) (B.Source.stream right.old))) (sides self.old.over))
            (stands self.old (both (A.Source.stream left.old) (B.Source.stream right.old)) lines.old windows.old) }
        ensures kept { Kept self.new.written lines.old lines.new windows.old windows.new }
    {
        while !self.over.both() {
            self.take_turn(left, right, lines, windows)?;
        }
        Ok(())
    }

    // The report of a run that ends here.
    fn report(&self, ending: Result<(), Fault>) -> RunReport
        ensures { result ≡ report_of (state self.now.query) self.now.written ending }
    {
        RunReport {
            lines: self.written.lines,
            windows: self.written.windows,
            closed: self.query.closed_time(),
            held_left: self.query.held(Side::Left),
            held_right: self.query.held(Side::Right),
            ending,
        }
    }
}

// A run with windows of a width over two sources, which writes its lines and its window records over the first places. Its
// ending is `Ok` exactly where both sources have ended; it stops at the first fault, and what it wrote until then stays. Where the
// width is not from 1 to 604,800 it tells BadWidth, and takes nothing. The promise is that of receipts.
pub fn run<
    L: Payload,
    R: Payload,
    S: Store + Drop,
    T: Store + Drop,
    A: Source<Payload = L>,
    B: Source<Payload = R>,
>(width: u32, left: &mut A, right: &mut B, lines: &mut [Line], windows: &mut [Window]) -> RunReport
    ensures value { reported result lines.new windows.new
        ≡ run_or_refused (setting L.Payload.kind R.Payload.kind S.Store.CAPACITY T.Store.CAPACITY width)
        (places lines.old windows.old)
        (shallows (both (A.Source.stream left.old) (B.Source.stream right.old))) }
    ensures later { Later result.lines lines.old lines.new × Later result.windows windows.old windows.new }
    ensures promise { lawful_width width ≡ true →
        Promise L.Payload.kind R.Payload.kind S.Store.CAPACITY T.Store.CAPACITY width
        (both (A.Source.rules left.old) (B.Source.rules right.old))
        (both (A.Source.foot left.old) (B.Source.foot right.old))
        (reported result lines.new windows.new) }
{
    match Query::<L, R, S, T>::new(width) {
        Err(fault) => RunReport {
            lines: 0,
            windows: 0,
            closed: 0,
            held_left: 0,
            held_right: 0,
            ending: Err(fault),
        },
        Ok(query) => {
            let mut run = Run {
                query,
                over: Over::default(),
                written: Written::default(),
            };
            let ending = run.go(left, right, lines, windows);
            run.report(ending)
        }
    }
}
