// The refusals in words, for a person.
use crate::refusal::Refusal;
use std::fmt;

impl fmt::Display for Refusal {
    fn fmt<W: fmt::Write>(&self, f: &mut fmt::Formatter<W>) -> fmt::Result {
        f.write_str(match self {
            Refusal::TooLong => "the file has more than 65,536 bytes",
            Refusal::CutOff => "the file ends in the middle",
            Refusal::BadByte => "a character is not allowed where it stands",
            Refusal::BadNumber => "a number is too large or badly written",
            Refusal::BadPayload => "the locker or the value is out of range",
            Refusal::BadTime => "the times are not lawful",
            Refusal::OutOfTime => "a rule would move a time past the last one",
            Refusal::CtiViolated => "it is older than what was said to be complete",
            Refusal::IdInUse => "a row with this id is held already",
            Refusal::NoSuchRow => "no row with this id is held",
            Refusal::OtherRow => "the row held under this id is another one",
            Refusal::StoreFull => "the store is full",
            Refusal::NotYet => "the window cannot be closed yet",
            Refusal::WindowsFull => "there is no place left for another window",
            Refusal::LinesFull => "there are more lines than places",
            Refusal::BadWidth => "the window width is not from 1 to 604,800 seconds",
            Refusal::BadRule => "a rule's number is out of its limits",
            Refusal::OutFull => "what is to be written does not fit",
        })
    }
}
