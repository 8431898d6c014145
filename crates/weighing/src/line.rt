// One line of input: a decimal number and a line feed.
ghost use Rattle.std.specs.Prelude.{◌≡◌};
ghost use Rattle.refusals.specs.Parts.{told};
ghost use Rattle.weighing.specs.Lines.{line_end, line_read};

use crate::weighed::Weighed;
use decimals::read_decimal;
use refusals::refusal::Refusal;

// What a number weighs whose line feed is next, and the bytes after that.
// A test of its own for the line feed: these lines stand below the text form of events, and are weighed as they are read.
fn line_end(number: u32, rest: &[u8]) -> Result<(Weighed, &[u8]), Refusal>
    ensures { told result ≡ line_end number rest.now }
{
    let [end, after @ ..] = rest else {
        return Err(Refusal::CutOff);
    };
    if *end != b'\n' {
        return Err(Refusal::BadByte);
    }
    let weighed = Weighed::of(number)?;
    Ok((weighed, after))
}

// What the number of the first line weighs, and the bytes after that line.
pub fn weigh_line(bytes: &[u8]) -> Result<(Weighed, &[u8]), Refusal>
    ensures { told result ≡ line_read bytes.now }
{
    let (number, rest) = read_decimal(bytes)?;
    line_end(number, rest)
}
