// Reading the fields of an event in binary: the byte of its kind, then its numbers in groups.
ghost use Rattle.std.specs.Prelude.{◌≡◌};
ghost use Rattle.refusals.specs.Parts.{told};
ghost use Rattle.files.specs.Orders.{head_by, pair_by, insert_by, retraction_by, cti_by};
ghost use Rattle.groups.specs.Groups.{groups_read};
ghost use Rattle.binary.specs.Binary.{end_read, binary_read};
ghost use Rattle.binary.specs.Ends.{binary_ends};

use crate::kind::EventKind;
use files::fields::{EndField, Fields, RowFields};
use files::form::Form;
use groups::read_groups;
use refusals::refusal::Refusal;
use rows::span::FOREVER;

// The end FOREVER is its number.
fn end(bytes: &[u8]) -> Result<(EndField, &[u8]), Refusal>
    ensures { told result ≡ end_read bytes.now }
{
    let (time, rest) = read_groups(bytes)?;
    if time == FOREVER {
        Ok((EndField::Forever, rest))
    } else {
        Ok((EndField::At(time), rest))
    }
}

// Id, start and end.
fn head(bytes: &[u8]) -> Result<((u32, u32, EndField), &[u8]), Refusal>
    ensures { told result ≡ head_by groups_read end_read bytes.now }
{
    let (id, rest) = read_groups(bytes)?;
    let (start, rest) = read_groups(rest)?;
    let (end, rest) = end(rest)?;
    Ok(((id, start, end), rest))
}

// Key and value.
fn pair(bytes: &[u8]) -> Result<((u32, u32), &[u8]), Refusal>
    ensures { told result ≡ pair_by groups_read bytes.now }
{
    let (key, rest) = read_groups(bytes)?;
    let (value, rest) = read_groups(rest)?;
    Ok(((key, value), rest))
}

fn insert(bytes: &[u8]) -> Result<(Fields, &[u8]), Refusal>
    ensures { told result ≡ insert_by groups_read end_read bytes.now }
{
    let ((id, start, end), rest) = head(bytes)?;
    let ((key, value), rest) = pair(rest)?;
    Ok((
        Fields::Insert(RowFields {
            id,
            start,
            end,
            key,
            value,
        }),
        rest,
    ))
}

fn retraction(bytes: &[u8]) -> Result<(Fields, &[u8]), Refusal>
    ensures { told result ≡ retraction_by groups_read end_read bytes.now }
{
    let ((id, start, old_end), rest) = head(bytes)?;
    let (new_end, rest) = end(rest)?;
    let ((key, value), rest) = pair(rest)?;
    Ok((
        Fields::Retraction {
            row: RowFields {
                id,
                start,
                end: old_end,
                key,
                value,
            },
            new_end,
        },
        rest,
    ))
}

fn cti(bytes: &[u8]) -> Result<(Fields, &[u8]), Refusal>
    ensures { told result ≡ cti_by groups_read bytes.now }
{
    let (time, rest) = read_groups(bytes)?;
    Ok((Fields::Cti(time), rest))
}

// The binary form.
#[derive(Clone, Copy)]
pub struct Binary;

impl Form for Binary {
    ghost read = { binary_read };

    ghost ends = { λ bs rest f e. binary_ends bs rest f e };

    fn fields(bytes: &[u8]) -> Result<(Fields, &[u8]), Refusal> {
        let [kind, rest @ ..] = bytes else {
            return Err(Refusal::CutOff);
        };
        match EventKind::try_from(*kind)? {
            EventKind::Insert => insert(rest),
            EventKind::Retraction => retraction(rest),
            EventKind::Cti => cti(rest),
        }
    }
}
