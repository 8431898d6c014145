// A weighed number as programs print it.
ghost use Rattle.std.specs.Prelude.{Some};
ghost use Rattle.weighing.specs.Printed.{weighed_line};

use crate::weighed::Weighed;
use rows::starred::Starred;
use std::fmt;

impl fmt::Display for Weighed {
    ghost output = { λ x. Some (weighed_line x) };

    fn fmt<W: fmt::Write>(&self, f: &mut fmt::Formatter<W>) -> fmt::Result {
        write!(f, "{} {} {}", self.number, self.least, Starred(self.most))
    }
}
