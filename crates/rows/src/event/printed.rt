// An event as the text form writes it, without the line feed.
ghost use Rattle.std.specs.Prelude.{Some};
ghost use Rattle.rows.specs.Events.{plain_event};
ghost use Rattle.rows.specs.Printed.{event_text};

use crate::event::Event;
use crate::payload::Payload;
use crate::starred::Starred;
use std::fmt;

impl<P: Payload> fmt::Display for Event<P> {
    ghost output = { λ x. Some (event_text (plain_event P.Payload.pair x)) };

    fn fmt<W: fmt::Write>(&self, f: &mut fmt::Formatter<W>) -> fmt::Result {
        match *self {
            Event::Insert(row) => write!(
                f,
                "I {} {} {} {} {}",
                row.id,
                row.span.start(),
                Starred(row.span.end()),
                row.payload.key(),
                row.payload.value()
            ),
            Event::Retraction { row, new_end } => write!(
                f,
                "R {} {} {} {} {} {}",
                row.id,
                row.span.start(),
                Starred(row.span.end()),
                Starred(new_end),
                row.payload.key(),
                row.payload.value()
            ),
            Event::Cti(time) => write!(f, "C {time}"),
        }
    }
}
