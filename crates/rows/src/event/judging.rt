// An event's sync time, and whether its times are lawful.
ghost use Rattle.std.specs.Prelude.{◌≡◌};
ghost use Rattle.rows.specs.Events.{plain_event, sync, times_judged};

use crate::event::Event;
use crate::payload::Payload;
use crate::span::times::is_finite;
use refusals::refusal::Refusal;

impl<P: Payload> Event<P> {
    // The time that a CTI may not have passed: an insert's start, the lower of a retraction's two ends, a CTI's time.
    pub fn sync(&self) -> u32
        ensures { result ≡ sync (plain_event P.Payload.pair self.now) }
    {
        match *self {
            Event::Insert(row) => row.span.start(),
            Event::Retraction { row, new_end } => row.span.end().min(new_end),
            Event::Cti(time) => time,
        }
    }

    // BadTime where a retraction's new end is not lawful for its row, or a CTI's time is not finite.
    pub fn judge_times(&self) -> Result<(), Refusal>
        ensures { result ≡ times_judged (plain_event P.Payload.pair self.now) }
    {
        let lawful = match *self {
            Event::Insert(_) => true,
            Event::Retraction { row, new_end } => row.span.takes_end(new_end),
            Event::Cti(time) => is_finite(time),
        };
        if lawful {
            Ok(())
        } else {
            Err(Refusal::BadTime)
        }
    }
}
