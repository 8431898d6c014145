// The calls of a hashed store: an id leads to its row by a hash, and to its place by binary search.
ghost use Rattle.std.specs.Prelude.{◌≡◌, ◌<◌, [], Some};
ghost use Rattle.std.proofs.Common.{lit≤};
ghost use Rattle.lists.specs.Lists.{listed};
ghost use Rattle.rows.specs.Rows.{plain};
ghost use Rattle.receipts.specs.Stores.{adds, without, kept};
ghost use Rattle.stores.specs.Told.{outcome};
ghost use Rattle.stores.specs.Places.{place};
ghost use Rattle.tables.specs.Cells.{slot_of};
ghost use Rattle.tables.specs.Tables.{cells};
ghost use Rattle.hashed.specs.Listing.{slots};
ghost use Rattle.hashed.specs.Model.{held};
ghost use Rattle.hashed.specs.Laws.{within_held, numbered_rows, standing_rows};

use crate::entry::Entry;
use crate::store::{HashedStore, MOST_REMOVALS};
use lists::list::ArrayList;
use refusals::refusal::Refusal;
use rows::row::PlainRow;
use rows::span::Span;
use stores::search::place_of;
use stores::store::{Purged, Store};
use tables::table::{CAPACITY, Table};

impl HashedStore {
    // The place of an id, whether or not a row has it.
    fn place(&self, id: u32) -> usize
        ensures { result ≡ place id (held self.now) }
    {
        place_of(self.entries.as_slice(), id)
    }

    // A store without rows.
    fn empty() -> HashedStore
        ensures rows { held result ≡ [] }
        ensures removals { result.removals ≡ 0 }
    {
        HashedStore {
            table: Table::new(),
            entries: ArrayList::new(),
            removals: 0,
        }
    }

    // Adds a row at the place of its id.
    #[inline]
    fn insert(&mut self, at: usize, row: PlainRow) -> Result<(), Refusal>
        requires { at ≡ place row.id (held self.old) }
        ensures told { outcome result (held self.new) ≡ adds 256 (plain row) (held self.old) }
        ensures removals { self.new.removals ≡ self.old.removals }
    {
        let slot = self.table.put(row)? as u16;
        // Where the table has room, so has the list.
        self.entries.insert(at, Entry { id: row.id, slot }).unwrap();
        Ok(())
    }

    // Takes away the row of an id, which stands in a slot.
    fn take_away(&mut self, id: u32, slot: usize)
        requires here { slot_of id (cells self.old.table) ≡ Some slot }
        requires room { self.old.removals < 128 }
        ensures { held self.new ≡ without id (held self.old) }
    {
        let place = self.place(id);
        self.table.clear(slot);
        self.entries.remove(place);
        self.removals += 1;
    }

    // Takes out the rows that end below a time: the table is built from nothing.
    // Never inlined, so that the room for the fresh store is no part of a removal's frame.
    #[inline(never)]
    fn rebuild(&mut self, below: u32)
        ensures rows { held self.new ≡ kept below (held self.old) }
        ensures removals { self.new.removals ≡ 0 }
    {
        let mut fresh = HashedStore::empty();
        for entry in self.entries.as_slice() {
            let row = self.table.row_in(entry.slot as usize).unwrap();
            if row.span.end() >= below {
                let last = fresh.entries.len();
                // The rows come in rising order, each id once, and are no more than were held, so that none is refused.
                fresh.insert(last, row).unwrap();
            }
        }
        *self = fresh;
    }

    // Makes room for one more removal.
    fn refresh(&mut self)
        ensures same { held self.new ≡ held self.old }
        ensures room { self.new.removals < 128 }
    {
        if self.removals == MOST_REMOVALS {
            self.rebuild(0);
        }
    }
}

impl Store for HashedStore {
    const CAPACITY: usize = CAPACITY;

    ghost CAPACITY = { 256 };

    ghost rows = { held };

    ghost some = { lit≤ tt };

    ghost few = { lit≤ tt };

    ghost within = { within_held };

    ghost rising = { λ s. s.rising };

    ghost numbered = { λ s. numbered_rows s.table (slots (listed s.entries)) };

    ghost standing = { λ s. standing_rows s.table (slots (listed s.entries)) };

    fn new() -> HashedStore {
        HashedStore::empty()
    }

    fn count(&self) -> usize {
        self.entries.len()
    }

    fn get(&self, id: u32) -> Option<PlainRow> {
        let slot = self.table.slot_of(id)?;
        self.table.row_in(slot)
    }

    fn first_from(&self, id: u32) -> Option<PlainRow> {
        self.row_at(self.place(id))
    }

    fn row_at(&self, place: usize) -> Option<PlainRow> {
        let slot = self.entries.as_slice().get(place)?.slot;
        self.table.row_in(slot as usize)
    }

    fn add(&mut self, id: u32, span: Span, key: u32, value: u32) -> Result<(), Refusal> {
        let place = self.place(id);
        self.insert(
            place,
            PlainRow {
                id,
                span,
                key,
                value,
            },
        )
    }

    fn set_end(&mut self, id: u32, end: u32) -> Result<(), Refusal> {
        let slot = self.table.slot_of(id).ok_or(Refusal::NoSuchRow)?;
        let row = self.table.row_in(slot).ok_or(Refusal::NoSuchRow)?;
        let span = Span::new(row.span.start(), end)?;
        self.table.set_span(slot, span);
        Ok(())
    }

    fn remove(&mut self, id: u32) -> Result<(), Refusal> {
        self.refresh();
        let slot = self.table.slot_of(id).ok_or(Refusal::NoSuchRow)?;
        self.take_away(id, slot);
        Ok(())
    }

    fn purge(&mut self, below: u32) -> Purged {
        let before = self.count();
        self.rebuild(below);
        Purged {
            count: before - self.count(),
        }
    }
}
