// The rule that gives every row the same length.
ghost use Rattle.std.specs.Prelude.{◌≡◌};
ghost use Rattle.rewriting.specs.RowRules.{set_duration};
ghost use Rattle.rewriting.proofs.RowRules.{set_duration_keeps};
ghost use Rattle.rules.specs.Limits.{duration_made, made_duration};

use crate::rule::RowRule;
use crate::seconds::Seconds;
use refusals::refusal::Refusal;
use rows::payload::Payload;
use rows::span::Span;

// The longest duration: thirty days, in seconds.
pub const LONGEST_DURATION: u32 = 2_592_000;

// How long rows last.
#[derive(Clone, Copy, PartialEq, Eq, Debug)]
pub struct SetDuration {
    lasting: Seconds<LONGEST_DURATION>,
}

impl SetDuration {
    // Makes the end start + 1 to 2,592,000 seconds, else BadRule.
    pub fn new(seconds: u32) -> Result<SetDuration, Refusal>
        ensures { made_duration result ≡ duration_made seconds }
    {
        Ok(SetDuration {
            lasting: Seconds::new(seconds)?,
        })
    }
}

impl RowRule for SetDuration {
    ghost rule = { λ x k. set_duration x.lasting.count };

    ghost keeps = { λ x k. set_duration_keeps x.lasting.count x.lasting.some };

    fn image<P: Payload>(
        &self,
        _id: u32,
        span: Span,
        _payload: P,
    ) -> Result<Option<Span>, Refusal> {
        Span::new(span.start(), span.start() + self.lasting.count())
            .map(Some)
            .map_err(|_| Refusal::OutOfTime)
    }

    fn advance<P: Payload>(&self, time: u32) -> Result<u32, Refusal> {
        Ok(time)
    }
}
