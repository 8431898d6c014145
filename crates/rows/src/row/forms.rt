// From a row to its plain form and back.
ghost use Rattle.std.specs.Prelude.{◌≡◌};
ghost use Rattle.rows.specs.Rows.{plain, plain_of, row_made, made_row};

use crate::payload::Payload;
use crate::row::{PlainRow, Row};
use crate::span::Span;
use refusals::refusal::Refusal;

impl<P: Payload> Row<P> {
    // The row as a store keeps it. A method and not a From: its name says at the call which form is meant.
    pub fn plain(self) -> PlainRow
        ensures { plain result ≡ plain_of P.Payload.pair self }
    {
        PlainRow {
            id: self.id,
            span: self.span,
            key: self.payload.key(),
            value: self.payload.value(),
        }
    }
}

// Zeros and the shortest span: what a list of rows with a fixed room holds where no row stands.
// Written out: the span in it has ghost fields, and no derive makes a default over those.
impl Default for PlainRow {
    ghost is_default = { λ r. plain r ≡ record { id = 0; start = 0; end = 1; key = 0; value = 0 } };

    fn default() -> PlainRow {
        PlainRow {
            id: 0,
            span: Span::default(),
            key: 0,
            value: 0,
        }
    }
}

impl PlainRow {
    // The row with its payload made back, or BadPayload where key or value is out of the kind's range.
    // A method and not a TryFrom: the kind of payload is named at the call.
    pub fn typed<P: Payload>(&self) -> Result<Row<P>, Refusal>
        ensures { made_row P.Payload.pair result ≡ row_made P.Payload.kind (plain self.now) }
    {
        let payload = P::make(self.key, self.value)?;
        Ok(Row {
            id: self.id,
            span: self.span,
            payload,
        })
    }
}
