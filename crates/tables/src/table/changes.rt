// How a table is made and changed. A call never adds more than one deleted slot, and only `clear` does.
ghost use Rattle.std.specs.Prelude.{◌≡◌, ◌+◌, ◌≤◌, replicate, None, slice_index_or, slice_set};
ghost use Rattle.rows.specs.Rows.{plain};
ghost use Rattle.tables.specs.Cells.{free_slot, placing, puts, spanned};
ghost use Rattle.tables.specs.Tables.{cells, deleted};

use crate::slot::Slot;
use crate::table::{CAPACITY, SLOTS, Table};
use refusals::refusal::Refusal;
use rows::row::PlainRow;
use rows::span::Span;

impl Table {
    // A table without rows.
    pub fn new() -> Table
        ensures empty { cells result ≡ replicate 512 None }
        ensures deleted { deleted result ≡ 0 }
    {
        Table {
            slots: [Slot::Empty; SLOTS],
            count: 0,
        }
    }

    // The first slot without a row in the search for an id.
    fn free_slot(&self, id: u32) -> Option<usize>
        ensures { result ≡ free_slot id (cells self.now) }
    {
        self.probe(id, |slot| !matches!(slot, Slot::Full(_)))
    }

    // Puts a row in and tells its slot: IdInUse where its id is held, else StoreFull at capacity.
    pub fn put(&mut self, row: PlainRow) -> Result<usize, Refusal>
        ensures told { placing result (cells self.new) ≡ puts (plain row) (cells self.old) }
        ensures deleted { deleted self.new ≤ deleted self.old }
    {
        if self.slot_of(row.id).is_some() {
            return Err(Refusal::IdInUse);
        }
        if self.count == CAPACITY {
            return Err(Refusal::StoreFull);
        }
        let slot = self.free_slot(row.id).ok_or(Refusal::StoreFull)?;
        self.slots[slot] = Slot::Full(row);
        self.count += 1;
        Ok(slot)
    }

    // Gives the row in a slot another span; nothing happens where there is none.
    pub fn set_span(&mut self, slot: usize, span: Span)
        ensures after { cells self.new ≡ slice_set (cells self.old) slot (spanned span.start span.end (slice_index_or (cells self.old) slot None)) }
        ensures deleted { deleted self.new ≤ deleted self.old }
    {
        if let Some(mut row) = self.row_in(slot) {
            row.span = span;
            self.slots[slot] = Slot::Full(row);
        }
    }

    // Takes away the row in a slot; nothing happens where there is none.
    pub fn clear(&mut self, slot: usize)
        ensures after { cells self.new ≡ slice_set (cells self.old) slot None }
        ensures deleted { deleted self.new ≤ deleted self.old + 1 }
    {
        if self.row_in(slot).is_some() {
            self.slots[slot] = Slot::Deleted;
            self.count -= 1;
        }
    }
}
