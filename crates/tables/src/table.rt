// The table: open addressing with linear probing.
ghost use Rattle.std.specs.Prelude.{◌≡◌, ◌≤◌, map, length};
ghost use Rattle.tables.specs.Cells.{filled};
ghost use Rattle.tables.specs.Slots.{cell, Reached};

use crate::slot::Slot;

pub mod changes;
pub mod questions;

pub const SLOTS: usize = 512;

// At most half of the slots hold rows, so that searches stay short.
pub const CAPACITY: usize = 256;

// Rows in slots, each id once. The search for an id begins at the slot that its hash names, goes from slot to slot, and
// ends at the row, or at an empty slot.
// The slots are a fixed number of places, so that the table needs no heap; `count` is how many of them hold rows, not how many
// there are.
#[derive(Clone, Copy)]
pub struct Table {
    slots: [Slot; SLOTS],
    count: usize,
    ghost long: { length slots ≡ 512 },
    ghost within: { count ≤ 256 },
    ghost counted: { count ≡ filled (map cell slots) },
    ghost reached: { Reached slots },
}
