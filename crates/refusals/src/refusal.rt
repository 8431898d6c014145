// The refusals: every reason for which the engine turns something down.
ghost use Rattle.std.specs.Prelude.{◌≡◌};
ghost use Rattle.refusals.specs.Refusals.{number_of};

pub mod worded;

#[derive(Clone, Copy, PartialEq, Eq, Debug)]
pub enum Refusal {
    TooLong = 1,
    CutOff = 2,
    BadByte = 3,
    BadNumber = 4,
    BadPayload = 5,
    BadTime = 6,
    OutOfTime = 7,
    CtiViolated = 8,
    IdInUse = 9,
    NoSuchRow = 10,
    OtherRow = 11,
    StoreFull = 12,
    NotYet = 13,
    WindowsFull = 14,
    LinesFull = 15,
    BadWidth = 16,
    BadRule = 17,
    OutFull = 18,
}

impl Refusal {
    // The number under which the refusal is told.
    pub fn number(self) -> u8
        ensures { result ≡ number_of self }
    {
        self as u8
    }
}
