// Where the row of an id stands.
ghost use Rattle.std.specs.Prelude.{◌≡◌, ℕ};

use stores::search::Identified;

// An id, and the slot of its row in the table.
#[derive(Clone, Copy, Default)]
pub(crate) struct Entry {
    pub(crate) id: u32,
    pub(crate) slot: u16,
}

impl Identified for Entry {
    ghost number = { λ entry. entry.id };

    fn id(&self) -> u32 {
        self.id
    }
}
