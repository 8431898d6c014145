// A file's bytes as a source.
ghost use Rattle.std.specs.Prelude.{◌+◌, ◌≤◌, length};

use refusals::fault::Fault;
use std::marker::PhantomData;

pub mod taking;

// The most bytes that a file may have.
pub const LONGEST: usize = 65_536;

// Where a reader stands: events may be left, the file is read to its end, or a fault was met.
// Three states: what `take` does is matched on the state and on what is left together.
#[derive(Clone, Copy)]
pub enum State {
    Reading,
    Ended,
    Failed(Fault),
}

// A file of some form, read from its place on; the next event has the number. The file is kept whole with a place in it, so that
// its number of events is bounded by its bytes.
#[derive(Drop)]
pub struct Reader<'a, F, P> {
    bytes: &'a [u8],
    place: usize,
    number: u64,
    state: State,
    form: PhantomData<F>,
    kind: PhantomData<P>,
    ghost short: { length bytes.now ≤ 65536 },
    ghost within: { place ≤ length bytes.now },
    ghost few: { number ≤ place + 1 },
}
