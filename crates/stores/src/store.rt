// The interface of every store.
ghost use Rattle.std.specs.Prelude.{◌≡◌, ℕ, ◌≤◌, List, [], length};
ghost use Rattle.rows.specs.Rows.{Plain};
ghost use Rattle.receipts.specs.Stores.{Rising, found, first_from, nth_row, adds, sets, removes, kept, gone};
ghost use Rattle.stores.specs.Told.{Numbered, Standing, seen, row_of, outcome};

use refusals::refusal::Refusal;
use rows::row::PlainRow;
use rows::span::Span;

// What a purge tells.
#[derive(Clone, Copy, PartialEq, Eq, Debug)]
pub struct Purged {
    // how many rows went
    pub count: usize,
}

// A store means its rows in rising id order, each id once, and its capacity. Rows come field by field, and a call asks
// nothing of its caller. A refused call changes nothing.
pub trait Store: Sized {
    const CAPACITY: usize;

    ghost CAPACITY: { ℕ };

    ghost rows: { Self → List Plain };

    ghost some: { 1 ≤ CAPACITY };

    ghost few: { CAPACITY ≤ 65536 };

    ghost within: { (s : Self) → length (rows s) ≤ CAPACITY };

    ghost rising: { (s : Self) → Rising (rows s) };

    ghost numbered: { (s : Self) → Numbered (rows s) };

    ghost standing: { (s : Self) → Standing (rows s) };

    // An empty store.
    fn new() -> Self
        ensures { rows result ≡ [] };

    // How many rows the store can hold.
    fn most_rows() -> usize
        ensures { result ≡ CAPACITY }
    {
        Self::CAPACITY
    }

    // How many rows it holds.
    fn count(&self) -> usize
        ensures { result ≡ length (rows self.now) };

    // The row of an id.
    fn get(&self, id: u32) -> Option<PlainRow>
        ensures { seen result ≡ found id (rows self.now) };

    // The row with the least id that is not below `id`.
    fn first_from(&self, id: u32) -> Option<PlainRow>
        ensures { seen result ≡ first_from id (rows self.now) };

    // The row at a place in id order.
    fn row_at(&self, place: usize) -> Option<PlainRow>
        ensures { seen result ≡ nth_row place (rows self.now) }
    {
        let mut from = 0;
        for _passed in 0..place {
            from = self.first_from(from)?.id.checked_add(1)?;
        }
        self.first_from(from)
    }

    // Adds a row: IdInUse where its id is held, else StoreFull at capacity.
    fn add(&mut self, id: u32, span: Span, key: u32, value: u32) -> Result<(), Refusal>
        ensures { outcome result (rows self.new) ≡ adds CAPACITY (row_of id span key value) (rows self.old) };

    // Gives a row another end: NoSuchRow, or BadTime where the row may not end there.
    fn set_end(&mut self, id: u32, end: u32) -> Result<(), Refusal>
        ensures { outcome result (rows self.new) ≡ sets id end (rows self.old) };

    // Removes a row: NoSuchRow.
    fn remove(&mut self, id: u32) -> Result<(), Refusal>
        ensures { outcome result (rows self.new) ≡ removes id (rows self.old) };

    // Removes the rows that end below a time.
    fn purge(&mut self, below: u32) -> Purged
        ensures count { result.count ≡ gone below (rows self.old) }
        ensures after { rows self.new ≡ kept below (rows self.old) };
}
