// What a rule makes of one event.
ghost use Rattle.std.specs.Prelude.{◌≡◌};
ghost use Rattle.rewriting.specs.Layers.{rewritten, of_insert, of_retraction};
ghost use Rattle.rows.specs.Events.{plain_event};
ghost use Rattle.rows.specs.Rows.{plain_of};
ghost use Rattle.layers.specs.Told.{rewritten_as, left_image};

use refusals::refusal::Refusal;
use rows::event::Event;
use rows::payload::Payload;
use rows::row::Row;
use rows::span::Span;
use rules::rule::RowRule;

// The event that a rule makes of an event, or none where it vanishes. BadTime where the event's times are not lawful.
pub fn rewrite<P: Payload, R: RowRule>(
    rule: &R,
    event: Event<P>,
) -> Result<Option<Event<P>>, Refusal>
    ensures { rewritten_as P.Payload.pair result
        ≡ rewritten (R.RowRule.rule rule.now P.Payload.kind) (plain_event P.Payload.pair event) }
{
    event.judge_times()?;
    match event {
        Event::Insert(row) => inserted(rule, row),
        Event::Retraction { row, new_end } => moved(rule, row, row.span.retracted(new_end)?),
        Event::Cti(time) => Ok(Some(Event::Cti(rule.advance::<P>(time)?))),
    }
}

// An insert becomes the image's insert, or vanishes.
fn inserted<P: Payload, R: RowRule>(rule: &R, row: Row<P>) -> Result<Option<Event<P>>, Refusal>
    ensures { rewritten_as P.Payload.pair result
        ≡ of_insert (plain_of P.Payload.pair row)
        ((R.RowRule.rule rule.now P.Payload.kind).image (plain_of P.Payload.pair row)) }
{
    let image = rule.image(row.id, row.span, row.payload)?;
    Ok(image.map(move |span| Event::Insert(Row { span, ..row })))
}

// A retraction, by the images of the row and of what is left of it.
fn moved<P: Payload, R: RowRule>(
    rule: &R,
    row: Row<P>,
    left: Option<Span>,
) -> Result<Option<Event<P>>, Refusal>
    ensures { rewritten_as P.Payload.pair result
        ≡ of_retraction (plain_of P.Payload.pair row)
        ((R.RowRule.rule rule.now P.Payload.kind).image (plain_of P.Payload.pair row))
        (left_image (R.RowRule.rule rule.now P.Payload.kind) (plain_of P.Payload.pair row) left) }
{
    let old = rule.image(row.id, row.span, row.payload)?;
    let new = left
        .map(move |left| rule.image(row.id, left, row.payload))
        .transpose()?
        .flatten();
    match (old, new) {
        (None, None) => Ok(None),
        (None, Some(span)) => Ok(Some(Event::Insert(Row { span, ..row }))),
        (Some(span), None) => Ok(Some(Event::Retraction {
            row: Row { span, ..row },
            new_end: span.start(),
        })),
        (Some(span), Some(other)) => {
            if span == other {
                return Ok(None);
            }
            Ok(Some(Event::Retraction {
                row: Row { span, ..row },
                new_end: other.end(),
            }))
        }
    }
}
