// A fault: a refusal, and where it was met.
ghost use Rattle.std.specs.Prelude.{◌≡◌};
ghost use Rattle.refusals.specs.Faults.{bare_fault, event_fault, on_side, at_cti};

use crate::refusal::Refusal;

pub mod printed;

// The two inputs of a query.
#[derive(Clone, Copy, PartialEq, Eq, Debug)]
pub enum Side {
    Left,
    Right,
}

// What was refused and, where it applies, on which side, at which layer's depth, at which event of its source, and by
// which CTI it was forbidden.
#[derive(Clone, Copy, PartialEq, Eq, Debug)]
pub struct Fault {
    pub refusal: Refusal,
    pub side: Option<Side>,
    pub depth: Option<u32>,
    pub event: Option<u64>,
    pub cti: Option<u32>,
}

impl Fault {
    // A fault that names nothing but its refusal.
    pub fn bare(refusal: Refusal) -> Fault
        ensures { result ≡ bare_fault refusal }
    {
        Fault {
            refusal,
            side: None,
            depth: None,
            event: None,
            cti: None,
        }
    }

    // A fault at an event of a source, told at a depth.
    pub fn at_event(refusal: Refusal, depth: u32, event: u64) -> Fault
        ensures { result ≡ event_fault refusal depth event }
    {
        Fault {
            depth: Some(depth),
            event: Some(event),
            ..Fault::bare(refusal)
        }
    }

    // The same fault, told on a side.
    pub fn on_side(self, side: Side) -> Fault
        ensures { result ≡ on_side side self }
    {
        Fault {
            side: Some(side),
            ..self
        }
    }

    // The same fault, with the CTI that was violated.
    pub fn with_cti(self, cti: u32) -> Fault
        ensures { result ≡ at_cti cti self }
    {
        Fault {
            cti: Some(cti),
            ..self
        }
    }
}

// A refusal that nothing more is known of.
impl From<Refusal> for Fault {
    ghost from_gives = { λ refusal fault. fault ≡ bare_fault refusal };

    fn from(refusal: Refusal) -> Fault {
        Fault::bare(refusal)
    }
}
