// The text form's number: decimal digits that come to at most 4,294,967,295, with no zero before another digit.
#![tactic(auto)]

ghost use Rattle.std.specs.Prelude.{◌≡◌};
ghost use Rattle.refusals.specs.Parts.{told};
ghost use Rattle.decimals.specs.Decimals.{digit, digit_first, leading_zero, with_digit, taken, decimal_fault, decimal_read, DecimalExact};
ghost use Rattle.decimals.specs.Examples.{DecimalExamples};

use refusals::refusal::Refusal;

fn is_digit(b: u8) -> bool
    ensures { result ≡ digit b }
{
    b.is_ascii_digit()
}

fn begins_with_digit(bytes: &[u8]) -> bool
    ensures { result ≡ digit_first bytes.now }
{
    matches!(bytes, [first, ..] if is_digit(*first))
}

fn has_leading_zero(bytes: &[u8]) -> bool
    ensures { result ≡ leading_zero bytes.now }
{
    match bytes {
        [b'0', after @ ..] => begins_with_digit(after),
        _ => false,
    }
}

// The number with a digit after it; None where the byte is no digit, and where the number would be too large.
fn with_digit(value: u32, b: u8) -> Option<u32>
    ensures { result ≡ with_digit value b }
{
    if !is_digit(b) {
        return None;
    }
    value.checked_mul(10)?.checked_add(u32::from(b - b'0'))
}

// Takes the digits at the front as far as the number stays at most 4,294,967,295: the number, and the bytes after them.
// Bytes that have no fault are the number as it is printed and then the bytes after it, and such bytes have no fault.
pub fn decimal(bytes: &[u8]) -> (u32, &[u8])
    ensures value { (result.0, result.1.now) ≡ taken 0 bytes.now }
    ensures exact { DecimalExact bytes.now }
{
    // A plain loop: the number and the bytes that are left go on together, up to the first digit that is too much.
    let mut value: u32 = 0;
    let mut rest = bytes;
    while let [first, after @ ..] = rest {
        let Some(more) = with_digit(value, *first) else {
            break;
        };
        value = more;
        rest = after;
    }
    (value, rest)
}

// The number that the bytes begin with and the bytes after it, or why they do not begin with one.
#[tactic(auto, using(crate::proofs::Exactness::decimal_exact))]
pub fn read_decimal(bytes: &[u8]) -> Result<(u32, &[u8]), Refusal>
    ensures value { told result ≡ decimal_read bytes.now }
    ensures exact { DecimalExact bytes.now }
{
    let [first, ..] = bytes else {
        return Err(Refusal::CutOff);
    };
    if !is_digit(*first) {
        return Err(Refusal::BadByte);
    }
    let (value, rest) = decimal(bytes);
    if has_leading_zero(bytes) || begins_with_digit(rest) {
        return Err(Refusal::BadNumber);
    }
    Ok((value, rest))
}

// Why the bytes do not begin with a decimal number; None where they do.
pub fn decimal_fault(bytes: &[u8]) -> Option<Refusal>
    ensures { result ≡ decimal_fault bytes.now }
{
    read_decimal(bytes).err()
}

// Texts that are read as numbers, and texts that are refused.
pub fn decimal_examples()
    ensures { DecimalExamples }
{}
