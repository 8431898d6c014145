// A span of time: a start and an end.
ghost use Rattle.std.specs.Prelude.{◌≡◌, ◌<◌, ◌≤◌};

pub mod times;

// The last finite time, in seconds.
pub const LAST: u32 = 4_000_000_000;

// The end of a span that has none yet. It is never a start.
pub const FOREVER: u32 = 4_294_967_295;

// The start is finite, the end is finite or FOREVER, and the start is below the end.
#[derive(Clone, Copy, PartialEq, Eq, Debug)]
pub struct Span {
    start: u32,
    end: u32,
    ghost begun: { start ≤ 4000000000 },
    ghost ended: { (4000000000 < end → end ≡ 4294967295) },
    ghost forward: { start < end },
}
