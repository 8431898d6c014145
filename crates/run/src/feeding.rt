// Feeding the query from a source: one event, or the source's ending.
ghost use Rattle.std.specs.Prelude.{◌≡◌};
ghost use Rattle.rows.specs.Events.{plain_event};
ghost use Rattle.joining.specs.Guards.{both};
ghost use Rattle.run_laws.specs.Runs.{run_fault, located};
ghost use Rattle.sources.specs.Taking.{rest_of};
ghost use Rattle.receipts.specs.Sides.{pick, put};
ghost use Rattle.query.specs.Answers.{event_told};
ghost use Rattle.run.specs.Steps.{shallow, next_as, next_on, is_cti, answer_step, steps};

use query::engine::Query;
use refusals::fault::{Fault, Side};
use refusals::refusal::Refusal;
use rows::event::Event;
use rows::payload::Payload;
use sources::source::{DEEPEST, Numbered, Source};
use stores::store::Store;

// Where an event stands: its source's depth, and its number there.
#[derive(Clone, Copy)]
pub struct Place {
    depth: u16,
    number: u64,
}

impl Place {
    // The fault of a closing that was refused, at the event just taken.
    pub fn run_fault(self, side: Side, why: Refusal) -> Fault
        ensures { result ≡ run_fault side self.depth self.number why }
    {
        Fault::at_event(why, u32::from(self.depth) + 1, self.number).on_side(side)
    }

    // The fault of an event that the query refused.
    fn locate(self, fault: Fault) -> Fault
        ensures { result ≡ located self.depth self.number fault }
    {
        Fault {
            depth: Some(u32::from(self.depth) + 1),
            event: Some(self.number),
            ..fault
        }
    }
}

// What came of a side's turn without a fault: its source ended, or an event was accepted, which may be a CTI. A CTI has its
// place with it, since the closings after it may be refused.
#[derive(Clone, Copy)]
pub enum Step {
    Ended,
    Accepted,
    Advanced(Place),
}

// The depth of a source.
fn depth_of<A: Source>(source: &A) -> u16
    ensures { result ≡ (shallow (A.Source.stream source.now)).depth }
{
    source.depth().min(DEEPEST) as u16
}

// The next event of a source, and its place.
#[derive(Clone, Copy)]
struct Next<P> {
    place: Place,
    event: Event<P>,
}

// Takes the next event of a side's source. A fault is told on the side.
fn next_of<A: Source>(source: &mut A, side: Side) -> Result<Option<Next<A::Payload>>, Fault>
    ensures value { next_as A.Payload.Payload.pair result ≡ next_on side (shallow (A.Source.stream source.old)) }
    ensures after { A.Source.stream source.new ≡ rest_of (A.Source.stream source.old) }
{
    let depth = depth_of(source);
    let taken = source.take().map_err(|fault| fault.on_side(side))?;
    Ok(taken.map(|Numbered { number, event }| Next {
        place: Place { depth, number },
        event,
    }))
}

// What comes of the query's answer to an event.
fn answered<P: Payload>(next: Next<P>, answer: Result<(), Fault>) -> Result<Step, Fault>
    ensures { result ≡ answer_step next.place (is_cti (plain_event P.Payload.pair next.event)) (event_told answer) }
{
    answer.map_err(|fault| next.place.locate(fault))?;
    Ok(if matches!(next.event, Event::Cti(_)) {
        Step::Advanced(next.place)
    } else {
        Step::Accepted
    })
}

// A turn of a side: feeds the query from its source, and leaves the other source as it is. The two arms differ in the type of
// the event, so neither the source nor the method can be picked first.
pub fn feed<
    L: Payload,
    R: Payload,
    S: Store,
    T: Store,
    A: Source<Payload = L>,
    B: Source<Payload = R>,
>(query: &mut Query<L, R, S, T>, left: &mut A, right: &mut B, side: Side) -> Result<Step, Fault>
    ensures value { steps query.old side (pick side (both (shallow (A.Source.stream left.old)) (shallow (B.Source.stream right.old)))) result query.new }
    ensures after { both (A.Source.stream left.new) (B.Source.stream right.new)
        ≡ put side (rest_of (pick side (both (A.Source.stream left.old) (B.Source.stream right.old))))
        (both (A.Source.stream left.old) (B.Source.stream right.old)) }
{
    match side {
        Side::Left => match next_of(left, side)? {
            None => Ok(Step::Ended),
            Some(next) => answered(next, query.left_event(next.event)),
        },
        Side::Right => match next_of(right, side)? {
            None => Ok(Step::Ended),
            Some(next) => answered(next, query.right_event(next.event)),
        },
    }
}
