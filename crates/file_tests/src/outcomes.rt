// What a file is read as.
use files::form::Form;
use files::reader::Reader;
use rows::payload::Payload;
use sources::source::Source;

// How many events, or else the refusal and the number of its event.
// A refusal is told by its number, since the tables of a second reader hold numbers.
pub type Outcome = Result<u64, (u8, u64)>;

pub fn told<F: Form, P: Payload>(bytes: &[u8]) -> Outcome {
    let mut reader: Reader<F, P> = Reader::new(bytes);
    let mut last = 0;
    while let Some(next) = reader
        .take()
        .map_err(|fault| (fault.refusal.number(), fault.event.unwrap_or(0)))?
    {
        last = next.number;
    }
    Ok(last)
}

// Whether the file, cut at each byte, is read as expected.
pub fn cut<F: Form, P: Payload>(bytes: &[u8], expected: &[Outcome]) -> bool {
    expected.len() == bytes.len() + 1
        && expected
            .iter()
            .enumerate()
            .all(|(n, outcome)| told::<F, P>(&bytes[..n]) == *outcome)
}

// Whether the file, with each byte in turn replaced by each of the others, is read as expected.
pub fn replaced<F: Form, P: Payload>(
    bytes: &mut [u8],
    others: &[u8],
    expected: &[Outcome],
) -> bool {
    let mut expected = expected.iter();
    // By index: a byte is changed while the whole file is read
    for i in 0..bytes.len() {
        let kept = bytes[i];
        for other in others {
            bytes[i] = *other;
            if expected.next().copied() != Some(told::<F, P>(bytes)) {
                return false;
            }
        }
        bytes[i] = kept;
    }
    expected.next().is_none()
}
