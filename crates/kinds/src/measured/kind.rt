// Measured values as payloads: the key and the value are kept, and the measure tells least and most.
ghost use Rattle.kinds.specs.Measures.{measured_pair, in_its_range, told_by_pair};

use crate::measured::{Measure, Measured};
use refusals::refusal::Refusal;
use rows::payload::{LAST_KEY, Payload};
use std::marker::PhantomData;

impl<M: Measure> Payload for Measured<M> {
    ghost kind = { M.kind };

    ghost pair = { measured_pair };

    ghost topped = { M.topped };

    ghost ordered = { M.ordered };

    ghost ranged = { in_its_range };

    ghost back = { told_by_pair };

    fn top() -> u32 {
        M::top()
    }

    fn key(&self) -> u32 {
        self.key
    }

    fn value(&self) -> u32 {
        self.value
    }

    fn least(&self) -> u32 {
        M::least(self)
    }

    fn most(&self) -> u32 {
        M::most(self)
    }

    fn make(key: u32, value: u32) -> Result<Measured<M>, Refusal> {
        if key > LAST_KEY || value > M::top() {
            return Err(Refusal::BadPayload);
        }
        Ok(Measured {
            key,
            value,
            measure: PhantomData,
        })
    }
}
