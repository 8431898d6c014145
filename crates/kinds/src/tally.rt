// A tally: how many pieces are in a locker.
ghost use Rattle.std.proofs.Common.{lit≤};
ghost use Rattle.kinds.specs.Kinds.{tallies};
ghost use Rattle.kinds.specs.Measures.{tallies_ordered};

use crate::measured::{Measure, Measured};

// The most pieces that a tally can tell.
pub const LAST_PIECE: u32 = 99;

// A number of pieces, at most 99: least and most are the pieces counted.
pub struct Pieces;

impl Measure for Pieces {
    ghost kind = { tallies };

    ghost topped = { lit≤ tt };

    ghost ordered = { tallies_ordered };

    fn top() -> u32 {
        LAST_PIECE
    }

    fn least(tally: &Tally) -> u32 {
        tally.value
    }

    fn most(tally: &Tally) -> u32 {
        Pieces::least(tally)
    }
}

// A locker and how many pieces are in it.
pub type Tally = Measured<Pieces>;
