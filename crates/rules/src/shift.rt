// The rule that moves rows to later times.
ghost use Rattle.std.specs.Prelude.{◌≡◌};
ghost use Rattle.rewriting.specs.RowRules.{shift};
ghost use Rattle.rewriting.proofs.RowRules.{shift_keeps};
ghost use Rattle.rules.specs.Limits.{shift_made, made_shift};

use crate::rule::RowRule;
use crate::seconds::Seconds;
use refusals::refusal::Refusal;
use rows::payload::Payload;
use rows::span::{FOREVER, LAST, Span};

// The longest shift: a day, in seconds.
pub const LONGEST_SHIFT: u32 = 86_400;

// By how much rows move.
#[derive(Clone, Copy, PartialEq, Eq, Debug)]
pub struct Shift {
    by: Seconds<LONGEST_SHIFT>,
}

impl Shift {
    // Adds 1 to 86,400 seconds to start and end, else BadRule.
    pub fn new(by: u32) -> Result<Shift, Refusal>
        ensures { made_shift result ≡ shift_made by }
    {
        Ok(Shift {
            by: Seconds::new(by)?,
        })
    }
}

impl RowRule for Shift {
    ghost rule = { λ x k. shift x.by.count };

    ghost keeps = { λ x k. shift_keeps x.by.count };

    fn image<P: Payload>(
        &self,
        _id: u32,
        span: Span,
        _payload: P,
    ) -> Result<Option<Span>, Refusal> {
        let by = self.by.count();
        let end = if span.end() == FOREVER {
            FOREVER
        } else {
            span.end() + by
        };
        Span::new(span.start() + by, end)
            .map(Some)
            .map_err(|_| Refusal::OutOfTime)
    }

    fn advance<P: Payload>(&self, time: u32) -> Result<u32, Refusal> {
        if time > LAST - self.by.count() {
            return Err(Refusal::OutOfTime);
        }
        Ok(time + self.by.count())
    }
}
