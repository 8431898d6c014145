// The two kinds of payload: tallies of pieces, and readings of the shelf.
#![tactic(auto)]

ghost use Rattle.kinds.specs.Examples.{Examples};

pub mod measured;
pub mod reading;
pub mod tally;

// The worked examples hold.
pub fn examples_hold()
    ensures { Examples }
{}
