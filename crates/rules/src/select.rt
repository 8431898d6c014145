// The rule that keeps some rows and drops the others.
ghost use Rattle.std.specs.Prelude.{◌≡◌};
ghost use Rattle.rewriting.specs.RowRules.{select};
ghost use Rattle.rewriting.proofs.RowRules.{select_keeps};
ghost use Rattle.rules.specs.Limits.{select_made};

use crate::rule::RowRule;
use refusals::refusal::Refusal;
use rows::payload::Payload;
use rows::span::Span;

// The bounds of the keys, and what the payload has to stand for at least and at most.
#[derive(Clone, Copy, PartialEq, Eq, Debug)]
pub struct Select {
    low: u32,
    high: u32,
    least: u32,
    most: u32,
}

impl Select {
    // Keeps the rows with key in low..high, least not below a bound, and most not above a bound. BadRule where a lower
    // bound is above its upper one.
    pub fn new(low: u32, high: u32, least: u32, most: u32) -> Result<Select, Refusal>
        ensures { result ≡ select_made low high least most }
    {
        if low > high || least > most {
            return Err(Refusal::BadRule);
        }
        Ok(Select {
            low,
            high,
            least,
            most,
        })
    }
}

impl RowRule for Select {
    ghost rule = { λ x k. select k x.low x.high x.least x.most };

    ghost keeps = { λ x k. select_keeps k x.low x.high x.least x.most };

    fn image<P: Payload>(&self, _id: u32, span: Span, payload: P) -> Result<Option<Span>, Refusal> {
        let key = payload.key();
        let kept = self.low <= key
            && key <= self.high
            && self.least <= payload.least()
            && payload.most() <= self.most;
        Ok(kept.then_some(span))
    }

    fn advance<P: Payload>(&self, time: u32) -> Result<u32, Refusal> {
        Ok(time)
    }
}
