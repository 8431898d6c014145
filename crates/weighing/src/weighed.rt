// A shelf number and what it weighs.
ghost use Rattle.std.specs.Prelude.{◌≡◌};
ghost use Rattle.weighing.specs.Lines.{number_weighed};

use kinds::reading::Reading;
use refusals::refusal::Refusal;
use rows::payload::Payload;

pub mod printed;

// A number, and the least and the most that it weighs, in grams.
#[derive(Clone, Copy, PartialEq, Eq, Debug)]
pub struct Weighed {
    pub number: u32,
    pub least: u32,
    pub most: u32,
}

impl Weighed {
    // What a number weighs, as a reading of the locker 0; BadPayload where it is no reading.
    pub fn of(number: u32) -> Result<Weighed, Refusal>
        ensures { result ≡ number_weighed number }
    {
        let reading = Reading::make(0, number)?;
        Ok(Weighed {
            number,
            least: reading.least(),
            most: reading.most(),
        })
    }
}
