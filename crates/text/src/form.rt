// Reading the fields of an event in text.
ghost use Rattle.std.specs.Prelude.{◌≡◌};
ghost use Rattle.files.specs.Orders.{row_from};
ghost use Rattle.text.specs.Lines.{end_in, number_in, line_of, fields_in};
ghost use Rattle.text.specs.Text.{text_read};
ghost use Rattle.text.specs.Ending.{text_ends};

use crate::checking::past_line;
use crate::lexer::{TextLine, line};
use decimals::decimal;
use files::fields::{EndField, Fields, RowFields};
use files::form::Form;
use refusals::refusal::Refusal;

fn number(field: &[u8]) -> u32
    ensures { result ≡ number_in field.now }
{
    let (value, _) = decimal(field);
    value
}

// Only `*` is FOREVER.
fn end(field: &[u8]) -> EndField
    ensures { result ≡ end_in field.now }
{
    match field {
        [b'*', ..] => EndField::Forever,
        _ => EndField::At(number(field)),
    }
}

// Reads the fields of a row, each a part of the input that was cut but not read.
fn row_fields(id: &[u8], start: &[u8], until: &[u8], key: &[u8], value: &[u8]) -> RowFields
    ensures { result ≡ row_from (number_in id.now, number_in start.now, end_in until.now) (number_in key.now, number_in value.now) }
{
    RowFields {
        id: number(id),
        start: number(start),
        end: end(until),
        key: number(key),
        value: number(value),
    }
}

fn fields_of(text: TextLine) -> Fields
    ensures { result ≡ fields_in (line_of text.entry) }
{
    match text {
        TextLine::Insert {
            id,
            start,
            end,
            key,
            value,
        } => Fields::Insert(row_fields(id, start, end, key, value)),
        TextLine::Retraction {
            id,
            start,
            end: until,
            new_end,
            key,
            value,
        } => Fields::Retraction {
            row: row_fields(id, start, until, key, value),
            new_end: end(new_end),
        },
        TextLine::Cti { time } => Fields::Cti(number(time)),
    }
}

// The text form.
#[derive(Clone, Copy)]
pub struct Text;

impl Form for Text {
    ghost read = { text_read };

    ghost ends = { λ bs rest f e. text_ends bs rest f e };

    fn fields(bytes: &[u8]) -> Result<(Fields, &[u8]), Refusal> {
        past_line(bytes)?;
        let (line, rest) = line(bytes);
        Ok((fields_of(line), rest))
    }
}
