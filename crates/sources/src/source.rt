// The interface of every source.
ghost use Rattle.std.specs.Prelude.{◌≡◌, List};
ghost use Rattle.rewriting.specs.Layers.{pile};
ghost use Rattle.rewriting.specs.Rules.{Rule, AllKeep};
ghost use Rattle.rewriting.specs.Streams.{Stream};
ghost use Rattle.sources.specs.Taking.{next_in, rest_of, taken_as};

use refusals::fault::Fault;
use rows::event::Event;
use rows::payload::Payload;

// The greatest depth of a source.
pub const DEEPEST: u32 = 65_535;

// An event of a source, under its number.
#[derive(Clone, Copy, PartialEq, Eq, Debug)]
pub struct Numbered<P> {
    pub number: u64,
    pub event: Event<P>,
}

// A source means its remaining numbered events, its ending and its depth. That is what the rules of its layers, lowest
// first, make of the stream at its foot; a source that is no layer has no rules, and is its own foot. All rules keep the
// laws of row rules.
pub trait Source {
    type Payload: Payload;

    ghost stream: { Self → Stream };

    ghost foot: { Self → Stream };

    ghost rules: { Self → List Rule };

    ghost keep: { (x : Self) → AllKeep (rules x) };

    ghost piled: { (x : Self) → stream x ≡ pile (rules x) (foot x) };

    // Takes the first event and leaves the rest. Where none is left it gives None, or the fault that the source ends with, and
    // changes nothing.
    fn take(&mut self) -> Result<Option<Numbered<Self::Payload>>, Fault>
        ensures value { taken_as Self.Payload.Payload.pair result ≡ next_in (stream self.old) }
        ensures after { stream self.new ≡ rest_of (stream self.old) };

    // 0 for a source that is no layer, else one more than below, at most DEEPEST.
    fn depth(&self) -> u32
        ensures { result ≡ (stream self.now).depth };
}
