// Judging an event's fields: the payload first, then the times.
ghost use Rattle.std.specs.Prelude.{◌≡◌, if◌then◌else◌, Ok, Err};
ghost use Rattle.refusals.specs.declared.refusal.Refusal.TheVariants.{BadTime};
ghost use Rattle.rows.specs.Times.{finite};
ghost use Rattle.rows.specs.Rows.{made_row};
ghost use Rattle.rows.specs.Spans.{made_span};
ghost use Rattle.files.specs.Judging.{end_judged, span_judged, row_judged, judged, judged_as};

use crate::fields::{EndField, Fields, RowFields};
use refusals::refusal::Refusal;
use rows::event::Event;
use rows::payload::Payload;
use rows::row::Row;
use rows::span::times::is_finite;
use rows::span::{FOREVER, Span};

// The time, or BadTime where it is past the last finite one.
fn finite(time: u32) -> Result<u32, Refusal>
    ensures { result ≡ (if finite time then Ok time else Err BadTime) }
{
    if is_finite(time) {
        Ok(time)
    } else {
        Err(Refusal::BadTime)
    }
}

// The time that an end field means, or BadTime: only FOREVER itself is more than the last finite time.
fn end_of(end: EndField) -> Result<u32, Refusal>
    ensures { result ≡ end_judged end }
{
    match end {
        EndField::At(time) => finite(time),
        EndField::Forever => Ok(FOREVER),
    }
}

// The span from a start to an end, or BadTime.
fn span_of(start: u32, end: EndField) -> Result<Span, Refusal>
    ensures { made_span result ≡ span_judged start end }
{
    let end = end_of(end)?;
    Span::new(start, end)
}

// The row, or BadPayload, or else BadTime.
fn row_of<P: Payload>(fields: RowFields) -> Result<Row<P>, Refusal>
    ensures { made_row P.Payload.pair result ≡ row_judged P.Payload.kind fields }
{
    let payload = P::make(fields.key, fields.value)?;
    let span = span_of(fields.start, fields.end)?;
    Ok(Row {
        id: fields.id,
        span,
        payload,
    })
}

// The event that the fields are. BadPayload where key or value is out of the kind's range, else BadTime where a time is not
// lawful.
// Inlined, so that a reader does not pass each event through memory.
#[inline]
pub fn event_of<P: Payload>(fields: Fields) -> Result<Event<P>, Refusal>
    ensures { judged_as P.Payload.pair result ≡ judged P.Payload.kind fields }
{
    match fields {
        Fields::Insert(row) => Ok(Event::Insert(row_of(row)?)),
        Fields::Retraction { row, new_end } => {
            // Judged here, and not by the event's own method: each kind has its times judged where its fields are told.
            let row = row_of(row)?;
            let new_end = end_of(new_end)?;
            if row.span.takes_end(new_end) {
                Ok(Event::Retraction { row, new_end })
            } else {
                Err(Refusal::BadTime)
            }
        }
        Fields::Cti(time) => Ok(Event::Cti(finite(time)?)),
    }
}
