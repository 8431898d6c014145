// A list of rows in the order in which they came: the plainest thing that can answer a store's calls.
ghost use Rattle.std.specs.Prelude.{◌<◌, vec_len, IfSome};

use refusals::refusal::Refusal;
use rows::row::PlainRow;
use rows::span::Span;
use std::alloc::{AllocError, Global};

#[derive(Drop)]
pub(crate) struct Naive {
    rows: Vec<PlainRow>,
    capacity: usize,
}

impl Naive {
    pub(crate) fn new(heap: Global, capacity: usize) -> Naive {
        Naive {
            rows: Vec::new(heap),
            capacity,
        }
    }

    pub(crate) fn count(&self) -> usize {
        self.rows.len()
    }

    pub(crate) fn get(&self, id: u32) -> Option<PlainRow> {
        self.rows.iter().find(|row| row.id == id).copied()
    }

    // The least of the ids that are not below `id`, by looking at each row.
    pub(crate) fn first_from(&self, id: u32) -> Option<PlainRow> {
        self.rows
            .iter()
            .filter(|row| row.id >= id)
            .min_by_key(|row| row.id)
            .copied()
    }

    // The row that has as many smaller ids beside it as `place` says.
    pub(crate) fn row_at(&self, place: usize) -> Option<PlainRow> {
        self.rows
            .iter()
            .find(|row| self.smaller(row.id) == place)
            .copied()
    }

    // How many ids are below `id`.
    fn smaller(&self, id: u32) -> usize {
        self.rows.iter().fold(
            0usize,
            |count, row| count.saturating_add(usize::from(row.id < id)),
        )
    }

    pub(crate) fn add(&mut self, row: PlainRow) -> Result<Result<(), Refusal>, AllocError> {
        if self.get(row.id).is_some() {
            return Ok(Err(Refusal::IdInUse));
        }
        if self.rows.len() >= self.capacity {
            return Ok(Err(Refusal::StoreFull));
        }
        self.rows.push(row)?;
        Ok(Ok(()))
    }

    pub(crate) fn set_end(&mut self, id: u32, end: u32) -> Result<(), Refusal> {
        let place = self.place_of(id).ok_or(Refusal::NoSuchRow)?;
        let start = self.rows[place].span.start();
        // Written out, as a second opinion on the rule.
        if start >= end || (end > 4_000_000_000 && end != 4_294_967_295) {
            return Err(Refusal::BadTime);
        }
        self.rows[place].span = Span::new(start, end)?;
        Ok(())
    }

    pub(crate) fn remove(&mut self, id: u32) -> Result<(), Refusal> {
        let place = self.place_of(id).ok_or(Refusal::NoSuchRow)?;
        self.rows.remove(place);
        Ok(())
    }

    // How many rows go.
    pub(crate) fn purge(&mut self, below: u32) -> usize {
        let before = self.rows.len();
        self.rows.retain(|row| row.span.end() >= below);
        before - self.rows.len()
    }

    fn place_of(&self, id: u32) -> Option<usize>
        ensures { IfSome result (λ place. place < vec_len self.now.rows) }
    {
        self.rows.iter().position(|row| row.id == id)
    }
}
