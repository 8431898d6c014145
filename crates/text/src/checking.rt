// Judging a text line from left to right: each number before the byte, or the file's end, after it.
ghost use Rattle.std.specs.Prelude.{◌≡◌};
ghost use Rattle.std.specs.Result.{result_err};
ghost use Rattle.refusals.specs.Parts.{rest_told};
ghost use Rattle.decimals.specs.Decimals.{decimal_read};
ghost use Rattle.text.specs.Skipping.{after, skip_byte, skip_number, skip_time, skip_end, skip_head, skip_pair, skip_insert, skip_retraction, skip_cti, skip_line};
ghost use Rattle.text.specs.Text.{text_read};

use decimals::read_decimal;
use refusals::refusal::Refusal;

// The bytes after a given byte.
fn past_byte(bytes: &[u8], byte: u8) -> Result<&[u8], Refusal>
    ensures { rest_told result ≡ skip_byte byte bytes.now }
{
    match bytes {
        [] => Err(Refusal::CutOff),
        [first, rest @ ..] if *first == byte => Ok(rest),
        _ => Err(Refusal::BadByte),
    }
}

// The bytes after a decimal number.
fn past_decimal(bytes: &[u8]) -> Result<&[u8], Refusal>
    ensures { rest_told result ≡ after (decimal_read bytes.now) }
{
    let (_, rest) = read_decimal(bytes)?;
    Ok(rest)
}

// The bytes after a `*` or a decimal number.
fn past_time(bytes: &[u8]) -> Result<&[u8], Refusal>
    ensures { rest_told result ≡ skip_time bytes.now }
{
    match bytes {
        [b'*', rest @ ..] => Ok(rest),
        _ => past_decimal(bytes),
    }
}

// The bytes after a space and a number.
fn past_number(bytes: &[u8]) -> Result<&[u8], Refusal>
    ensures { rest_told result ≡ skip_number bytes.now }
{
    let rest = past_byte(bytes, b' ')?;
    past_decimal(rest)
}

// The bytes after a space and an end.
fn past_end(bytes: &[u8]) -> Result<&[u8], Refusal>
    ensures { rest_told result ≡ skip_end bytes.now }
{
    let rest = past_byte(bytes, b' ')?;
    past_time(rest)
}

// The bytes after id, start and end.
fn past_head(bytes: &[u8]) -> Result<&[u8], Refusal>
    ensures { rest_told result ≡ skip_head bytes.now }
{
    let rest = past_number(bytes)?;
    let rest = past_number(rest)?;
    past_end(rest)
}

// The bytes after key and value.
fn past_pair(bytes: &[u8]) -> Result<&[u8], Refusal>
    ensures { rest_told result ≡ skip_pair bytes.now }
{
    let rest = past_number(bytes)?;
    past_number(rest)
}

// The bytes after the line of an insert, from its first field on.
fn past_insert(bytes: &[u8]) -> Result<&[u8], Refusal>
    ensures { rest_told result ≡ skip_insert bytes.now }
{
    let rest = past_head(bytes)?;
    let rest = past_pair(rest)?;
    past_byte(rest, b'\n')
}

// The bytes after the line of a retraction, from its first field on.
fn past_retraction(bytes: &[u8]) -> Result<&[u8], Refusal>
    ensures { rest_told result ≡ skip_retraction bytes.now }
{
    let rest = past_head(bytes)?;
    let rest = past_end(rest)?;
    let rest = past_pair(rest)?;
    past_byte(rest, b'\n')
}

// The bytes after the line of a CTI, from its field on.
fn past_cti(bytes: &[u8]) -> Result<&[u8], Refusal>
    ensures { rest_told result ≡ skip_cti bytes.now }
{
    let rest = past_number(bytes)?;
    past_byte(rest, b'\n')
}

// The bytes after a whole line.
pub(crate) fn past_line(bytes: &[u8]) -> Result<&[u8], Refusal>
    ensures { rest_told result ≡ skip_line bytes.now }
{
    let [first, rest @ ..] = bytes else {
        return Err(Refusal::CutOff);
    };
    match char::from(*first) {
        'I' => past_insert(rest),
        'R' => past_retraction(rest),
        'C' => past_cti(rest),
        _ => Err(Refusal::BadByte),
    }
}

// Why the bytes do not begin with a line: CutOff, BadByte or BadNumber; None where they do.
pub fn line_fault(bytes: &[u8]) -> Option<Refusal>
    ensures { result ≡ result_err (text_read bytes.now) }
{
    past_line(bytes).err()
}
