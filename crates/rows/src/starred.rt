// A number whose greatest value stands for no number: an end that is FOREVER, a most that is UNLIMITED.
ghost use Rattle.std.specs.Prelude.{Some};
ghost use Rattle.rows.specs.Printed.{starred_text};

use std::fmt;

// Printed in decimal, `*` where it is the greatest number of 32 bits.
#[derive(Clone, Copy, PartialEq, Eq, Debug)]
pub struct Starred(pub u32);

impl fmt::Display for Starred {
    ghost output = { λ x. Some (starred_text x.0) };

    fn fmt<W: fmt::Write>(&self, f: &mut fmt::Formatter<W>) -> fmt::Result {
        match self.0 {
            u32::MAX => write!(f, "*"),
            number => write!(f, "{number}"),
        }
    }
}
