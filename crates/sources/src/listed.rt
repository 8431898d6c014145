// A slice of events as a source.
ghost use Rattle.std.specs.Prelude.{◌+◌, ◌^◌, ◌<◌, length};

use rows::event::Event;

pub mod taking;

// The events that are left, and how many were taken before them.
#[derive(Drop)]
pub struct Listed<'a, P> {
    rest: &'a [Event<P>],
    taken: u64,
    ghost counted: { taken + length rest.now < 2 ^ 64 },
}
