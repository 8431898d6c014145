// Receipt lines and window records as programs print them.
ghost use Rattle.std.specs.Prelude.{Some};
ghost use Rattle.receipts.specs.Printed.{line_text, window_text};

use crate::line::Line;
use crate::window::Window;
use rows::starred::Starred;
use std::fmt;

// `L` and the nine numbers of the line.
impl fmt::Display for Line {
    ghost output = { λ x. Some (line_text x) };

    fn fmt<W: fmt::Write>(&self, f: &mut fmt::Formatter<W>) -> fmt::Result {
        write!(
            f,
            "L {} {} {} {} {} {} {} {} {}",
            self.left_id,
            self.right_id,
            self.start,
            self.end,
            self.key,
            self.left_least,
            Starred(self.left_most),
            self.right_least,
            Starred(self.right_most)
        )
    }
}

// `W` and the six numbers of the record.
impl fmt::Display for Window {
    ghost output = { λ x. Some (window_text x) };

    fn fmt<W: fmt::Write>(&self, f: &mut fmt::Formatter<W>) -> fmt::Result {
        write!(
            f,
            "W {} {} {} {} {} {}",
            self.start, self.end, self.count, self.lines, self.purged_left, self.purged_right
        )
    }
}
