// A rule's number of seconds.
ghost use Rattle.std.specs.Prelude.{◌≤◌};

use refusals::refusal::Refusal;

// How many seconds, from 1 to the most that the rule allows.
#[derive(Clone, Copy, PartialEq, Eq, Debug)]
pub struct Seconds<const MOST: u32> {
    count: u32,
    ghost some: { 1 ≤ count },
    ghost bounded: { count ≤ MOST },
}

impl<const MOST: u32> Seconds<MOST> {
    ghost use Rattle.std.specs.Prelude.{◌≡◌};
    ghost use Rattle.rules.specs.Limits.{within, counted};

    // So many seconds, or BadRule where they are none or too many.
    pub fn new(count: u32) -> Result<Seconds<MOST>, Refusal>
        ensures { counted result ≡ within MOST count }
    {
        if count < 1 || count > MOST {
            return Err(Refusal::BadRule);
        }
        Ok(Seconds { count })
    }

    pub fn count(&self) -> u32
        ensures { result ≡ self.now.count }
    {
        self.count
    }
}
