// Making a span, and what a retraction leaves of one.
ghost use Rattle.std.specs.Prelude.{◌≡◌, Bool};
ghost use Rattle.rows.specs.Times.{finite, retractable};
ghost use Rattle.rows.specs.Spans.{times, span_made, made_span, span_left, left_span};

use crate::span::{FOREVER, LAST, Span};
use refusals::refusal::Refusal;

// Whether a time is finite.
pub fn is_finite(time: u32) -> bool
    ensures { result ≡ finite time }
{
    time <= LAST
}

impl Span {
    // The span from a start to an end, or BadTime.
    pub fn new(start: u32, end: u32) -> Result<Span, Refusal>
        ensures { made_span result ≡ span_made start end }
    {
        if !is_finite(start) || (!is_finite(end) && end != FOREVER) || start >= end {
            return Err(Refusal::BadTime);
        }
        Ok(Span { start, end })
    }

    pub fn start(&self) -> u32
        ensures { result ≡ self.now.start }
    {
        self.start
    }

    pub fn end(&self) -> u32
        ensures { result ≡ self.now.end }
    {
        self.end
    }

    // Whether a retraction may give the span another end.
    pub fn takes_end(&self, new_end: u32) -> bool
        ensures { result ≡ retractable self.now.start self.now.end new_end }
    {
        (is_finite(new_end) || new_end == FOREVER) && new_end != self.end && self.start <= new_end
    }

    // What a retraction leaves of the span: nothing where the new end is the start.
    pub fn retracted(&self, new_end: u32) -> Result<Option<Span>, Refusal>
        ensures { left_span result ≡ span_left self.now.start self.now.end new_end }
    {
        if !self.takes_end(new_end) {
            return Err(Refusal::BadTime);
        }
        if new_end == self.start {
            return Ok(None);
        }
        Ok(Some(Span {
            start: self.start,
            end: new_end,
        }))
    }
}

// The span from 0 to 1. Written out: no derive makes a default over ghost fields.
impl Default for Span {
    ghost is_default = { λ s. times s ≡ record { start = 0; end = 1 } };

    fn default() -> Span {
        Span { start: 0, end: 1 }
    }
}
