// Text lines, told as one of three kinds, with their fields as parts of the text.
ghost use Rattle.std.specs.Prelude.{◌≡◌, position};
ghost use Rattle.text.specs.Lines.{parts, front, back, field_at, past, tail, line_as, line_cut};

// A line's fields: each is a part of the input, cut but not read.
#[derive(Clone, Copy, Debug)]
pub enum TextLine<'a> {
    Insert {
        id: &'a [u8],
        start: &'a [u8],
        end: &'a [u8],
        key: &'a [u8],
        value: &'a [u8],
    },
    Retraction {
        id: &'a [u8],
        start: &'a [u8],
        end: &'a [u8],
        new_end: &'a [u8],
        key: &'a [u8],
        value: &'a [u8],
    },
    Cti {
        time: &'a [u8],
    },
}

// Whether a byte parts fields: a space or a line feed.
fn parts(b: u8) -> bool
    ensures { result ≡ parts b }
{
    matches!(b, b' ' | b'\n')
}

// The first place that parts fields.
fn part_place(bytes: &[u8]) -> Option<usize>
    ensures { result ≡ position parts bytes.now }
{
    bytes.iter().position(|b| parts(*b))
}

// The bytes before the first space or line feed, and those from it on.
fn cut(bytes: &[u8]) -> (&[u8], &[u8])
    ensures front { result.0.now ≡ front bytes.now }
    ensures back { result.1.now ≡ back bytes.now }
{
    let at = part_place(bytes).unwrap_or(bytes.len());
    bytes.split_at(at)
}

// The field after the first byte, and the bytes after the field.
fn field(bytes: &[u8]) -> (&[u8], &[u8])
    ensures field { result.0.now ≡ field_at bytes.now }
    ensures past { result.1.now ≡ past bytes.now }
{
    match bytes {
        [] => (bytes, bytes),
        [_, rest @ ..] => cut(rest),
    }
}

// The fields id, start and end, and the bytes after them.
fn head(bytes: &[u8]) -> (&[u8], &[u8], &[u8], &[u8])
    ensures id { result.0.now ≡ field_at bytes.now }
    ensures start { result.1.now ≡ field_at (past bytes.now) }
    ensures end { result.2.now ≡ field_at (past (past bytes.now)) }
    ensures past { result.3.now ≡ past (past (past bytes.now)) }
{
    let (id, rest) = field(bytes);
    let (start, rest) = field(rest);
    let (end, rest) = field(rest);
    (id, start, end, rest)
}

// The fields key and value, and the bytes after them.
fn pair(bytes: &[u8]) -> (&[u8], &[u8], &[u8])
    ensures key { result.0.now ≡ field_at bytes.now }
    ensures value { result.1.now ≡ field_at (past bytes.now) }
    ensures past { result.2.now ≡ past (past bytes.now) }
{
    let (key, rest) = field(bytes);
    let (value, rest) = field(rest);
    (key, value, rest)
}

// The bytes after the first.
fn past_first(bytes: &[u8]) -> &[u8]
    ensures { result.now ≡ tail bytes.now }
{
    match bytes {
        [] => bytes,
        [_, rest @ ..] => rest,
    }
}

// The line that the bytes begin with, cut at each space, and the bytes after its line feed. Bytes that begin with no letter of
// a kind are a CTI with an empty time, and all of them are left: the check before it refuses such bytes, so nothing reads that CTI.
pub fn line<'a>(bytes: &'a [u8]) -> (TextLine<'a>, &'a [u8])
    ensures { line_as result ≡ line_cut bytes.now }
{
    let [first, rest @ ..] = bytes else {
        return (TextLine::Cti { time: bytes }, bytes);
    };
    match char::from(*first) {
        'I' => {
            let (id, start, end, rest) = head(rest);
            let (key, value, rest) = pair(rest);
            (
                TextLine::Insert {
                    id,
                    start,
                    end,
                    key,
                    value,
                },
                past_first(rest),
            )
        }
        'R' => {
            let (id, start, end, rest) = head(rest);
            let (new_end, rest) = field(rest);
            let (key, value, rest) = pair(rest);
            (
                TextLine::Retraction {
                    id,
                    start,
                    end,
                    new_end,
                    key,
                    value,
                },
                past_first(rest),
            )
        }
        'C' => {
            let (time, rest) = field(rest);
            (TextLine::Cti { time }, past_first(rest))
        }
        _ => (TextLine::Cti { time: &bytes[0..0] }, bytes),
    }
}
