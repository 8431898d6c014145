// A slot of the table.
use rows::row::PlainRow;

// A search for an id goes on past a deleted slot and stops at an empty one.
#[derive(Clone, Copy)]
pub enum Slot {
    Empty,
    Deleted,
    Full(PlainRow),
}
