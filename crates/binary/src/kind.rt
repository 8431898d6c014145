// The kinds of events, by the byte that tells each.
ghost use Rattle.std.specs.Prelude.{◌≡◌};
ghost use Rattle.binary.specs.EventKinds.{kind_read};

use refusals::refusal::Refusal;

#[derive(Clone, Copy, PartialEq, Eq, Debug)]
pub enum EventKind {
    Insert = 1,
    Retraction = 2,
    Cti = 3,
}

// The kind that a byte tells; BadByte where it tells none.
impl TryFrom<u8> for EventKind {
    type Error = Refusal;

    ghost try_from_gives = { λ byte r. r ≡ kind_read byte };

    fn try_from(byte: u8) -> Result<EventKind, Refusal> {
        match byte {
            1 => Ok(EventKind::Insert),
            2 => Ok(EventKind::Retraction),
            3 => Ok(EventKind::Cti),
            _ => Err(Refusal::BadByte),
        }
    }
}
