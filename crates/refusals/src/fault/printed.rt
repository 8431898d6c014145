// A fault as programs print it.
ghost use Rattle.std.specs.Prelude.{Some};
ghost use Rattle.refusals.specs.Printed.{fault_line, letter, field_told};

use crate::fault::{Fault, Side};
use std::fmt;

// A side as one letter.
impl fmt::Display for Side {
    ghost output = { λ x. Some (letter x) };

    fn fmt<W: fmt::Write>(&self, f: &mut fmt::Formatter<W>) -> fmt::Result {
        match self {
            Side::Left => write!(f, "L"),
            Side::Right => write!(f, "R"),
        }
    }
}

// A field of a fault, `-` where it is absent.
#[derive(Clone, Copy)]
struct Field<T>(Option<T>);

impl<T: fmt::Display> fmt::Display for Field<T> {
    ghost output = { λ x. field_told T.output x.0 };

    fn fmt<W: fmt::Write>(&self, f: &mut fmt::Formatter<W>) -> fmt::Result {
        match &self.0 {
            Some(field) => write!(f, "{field}"),
            None => write!(f, "-"),
        }
    }
}

impl fmt::Display for Fault {
    ghost output = { λ x. Some (fault_line x) };

    fn fmt<W: fmt::Write>(&self, f: &mut fmt::Formatter<W>) -> fmt::Result {
        let number = self.refusal.number();
        let side = Field(self.side);
        let depth = Field(self.depth);
        let event = Field(self.event);
        let cti = Field(self.cti);
        write!(f, "F {number} {side} {depth} {event} {cti}")
    }
}
