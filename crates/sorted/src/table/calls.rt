// The calls of a sorted store: each id is found by binary search.
ghost use Rattle.std.specs.Prelude.{◌≡◌, ◌≤◌, cond, nat_lt, length, insert, Ok, Err};
ghost use Rattle.std.proofs.Common.{lit≤, arith};
ghost use Rattle.lists.specs.Lists.{listed};
ghost use Rattle.lists.proofs.Lengths.{listed_few};
ghost use Rattle.stores.proofs.Plains.{within_plain, numbered_plain, standing_plain};
ghost use Rattle.refusals.specs.declared.refusal.Refusal.TheVariants.{StoreFull};
ghost use Rattle.sorted.specs.Model.{held, spot};

use crate::table::{CAPACITY, SortedStore};
use lists::list::ArrayList;
use refusals::refusal::Refusal;
use rows::row::PlainRow;
use rows::span::Span;
use stores::search::place_of;
use stores::store::{Purged, Store};

impl SortedStore {
    // The place of the row of an id, or else the place where it would go.
    fn find(&self, id: u32) -> Result<usize, usize>
        ensures { result ≡ spot id (held self.now) }
    {
        self.rows.as_slice().binary_search_by_key(&id, |row| row.id)
    }
}

// Puts a row at a place of a list, unless the list is full.
#[inline]
fn put(rows: &mut ArrayList<PlainRow, CAPACITY>, place: usize, row: PlainRow) -> Result<(), Refusal>
    requires { place ≤ length (listed rows.old) }
    ensures value { result ≡ cond (nat_lt (length (listed rows.old)) 128) (Ok tt) (Err StoreFull) }
    ensures after { listed rows.new ≡ cond (nat_lt (length (listed rows.old)) 128) (insert (listed rows.old) place row) (listed rows.old) }
{
    rows.insert(place, row).map_err(|_| Refusal::StoreFull)
}

impl Store for SortedStore {
    const CAPACITY: usize = CAPACITY;

    ghost CAPACITY = { 128 };

    ghost rows = { held };

    ghost some = { lit≤ tt };

    ghost few = { lit≤ tt };

    ghost within = { λ s. within_plain 128 (listed s.rows) (omega (arith, listed_few s.rows)) };

    ghost rising = { λ s. s.rising };

    ghost numbered = { λ s. numbered_plain (listed s.rows) };

    ghost standing = { λ s. standing_plain (listed s.rows) };

    fn new() -> SortedStore {
        SortedStore {
            rows: ArrayList::new(),
        }
    }

    fn count(&self) -> usize {
        self.rows.len()
    }

    fn get(&self, id: u32) -> Option<PlainRow> {
        self.row_at(self.find(id).ok()?)
    }

    fn first_from(&self, id: u32) -> Option<PlainRow> {
        self.row_at(place_of(self.rows.as_slice(), id))
    }

    fn row_at(&self, place: usize) -> Option<PlainRow> {
        self.rows.as_slice().get(place).copied()
    }

    fn add(&mut self, id: u32, span: Span, key: u32, value: u32) -> Result<(), Refusal> {
        let row = PlainRow {
            id,
            span,
            key,
            value,
        };
        match self.find(id) {
            Ok(_) => Err(Refusal::IdInUse),
            Err(place) => put(&mut self.rows, place, row),
        }
    }

    fn set_end(&mut self, id: u32, end: u32) -> Result<(), Refusal> {
        let place = self.find(id).map_err(|_| Refusal::NoSuchRow)?;
        let mut row = self.rows.as_slice()[place];
        row.span = Span::new(row.span.start(), end)?;
        self.rows.set(place, row);
        Ok(())
    }

    fn remove(&mut self, id: u32) -> Result<(), Refusal> {
        let place = self.find(id).map_err(|_| Refusal::NoSuchRow)?;
        self.rows.remove(place);
        Ok(())
    }

    fn purge(&mut self, below: u32) -> Purged {
        let before = self.rows.len();
        self.rows.retain(|row| row.span.end() >= below);
        Purged {
            count: before - self.rows.len(),
        }
    }
}
