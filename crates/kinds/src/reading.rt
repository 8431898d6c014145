// A reading: what the sensor of a locker's shelf counted.
ghost use Rattle.std.proofs.Common.{lit≤};
ghost use Rattle.kinds.specs.Kinds.{readings};
ghost use Rattle.kinds.specs.Measures.{readings_ordered};

use crate::measured::{Measure, Measured};
use rows::payload::UNLIMITED;
use weights::{LAST_COUNT, grams_of};

// A count of the sensor, at most the last: least and most are its weight in grams, but for a clipped reading, whose most
// is unlimited.
pub struct Grams;

impl Measure for Grams {
    ghost kind = { readings };

    ghost topped = { lit≤ tt };

    ghost ordered = { readings_ordered };

    fn top() -> u32 {
        LAST_COUNT
    }

    fn least(reading: &Reading) -> u32 {
        grams_of(reading.value).unwrap()
    }

    // A reading at the last count is clipped: the weight may be any above.
    fn most(reading: &Reading) -> u32 {
        if reading.value < LAST_COUNT {
            Grams::least(reading)
        } else {
            UNLIMITED
        }
    }
}

// A locker and what the sensor of its shelf counted.
pub type Reading = Measured<Grams>;
