// What a table is asked.
ghost use Rattle.std.specs.Prelude.{◌≡◌, Bool, None, slice_index_or};
ghost use Rattle.std.specs.Fn.{FnReturnsAt};
ghost use Rattle.stores.specs.Told.{seen};
ghost use Rattle.tables.specs.declared.slot.Slot.{Slot};
ghost use Rattle.tables.specs.Cells.{slot_of, filled};
ghost use Rattle.tables.specs.Slots.{Computes, probed};
ghost use Rattle.tables.specs.Tables.{cells};

use crate::home::home_of;
use crate::slot::Slot;
use crate::table::{SLOTS, Table};
use rows::row::PlainRow;

impl Table {
    // How many rows it holds.
    pub fn count(&self) -> usize
        ensures { result ≡ filled (cells self.now) }
    {
        self.count
    }

    // The row in a slot.
    pub fn row_in(&self, slot: usize) -> Option<PlainRow>
        ensures { seen result ≡ slice_index_or (cells self.now) slot None }
    {
        match self.slots.get(slot) {
            Some(Slot::Full(row)) => Some(*row),
            _ => None,
        }
    }

    // The slot that a search for an id stops at: the first at which `stops` holds, from the slot that the hash names on, and
    // behind the last from the first.
    pub(super) fn probe<F: Fn(&Slot) -> bool>(&self, id: u32, stops: F) -> Option<usize>
        requires { F.IsAlwaysCallable stops }
        ensures { (p : Slot → Bool) → Computes p (FnReturnsAt F.Fn stops) → result ≡ probed p id self.now.slots }
    {
        let home = home_of(id);
        // A plain loop: a chain of places would have to tell of each that it is one of the table, and of all that none stops.
        for step in 0..SLOTS {
            let slot = (home + step) % SLOTS;
            if stops(&self.slots[slot]) {
                return Some(slot);
            }
        }
        None
    }

    // The slot of the row of an id.
    pub fn slot_of(&self, id: u32) -> Option<usize>
        ensures { result ≡ slot_of id (cells self.now) }
    {
        let slot = self.probe(id, |slot| match slot {
            Slot::Empty => true,
            Slot::Deleted => false,
            Slot::Full(row) => row.id == id,
        })?;
        self.row_in(slot).and(Some(slot))
    }
}
