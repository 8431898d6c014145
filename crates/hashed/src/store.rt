// A hashed store: the rows in a table, and an entry for each in rising id order.
ghost use Rattle.std.specs.Prelude.{◌≡◌, ◌≤◌, map, length};
ghost use Rattle.lists.specs.Lists.{listed};
ghost use Rattle.receipts.specs.Stores.{Rising};
ghost use Rattle.stores.specs.Places.{id_of};
ghost use Rattle.stores.proofs.Order.{Rising-prop};
ghost use Rattle.tables.specs.Cells.{filled};
ghost use Rattle.tables.specs.Tables.{cells, deleted};
ghost use Rattle.hashed.specs.Listing.{ids, slots, rows_in, Matched};

use crate::entry::Entry;
use lists::list::ArrayList;
use std::alloc::AllocError;
use tables::table::{CAPACITY, Table};

pub mod calls;

// How many slots may be deleted.
// At least 128 of the 512 slots stay empty, since at most 256 hold rows, and a search ends at any of them.
const MOST_REMOVALS: usize = 128;

// `removals` counts the rows that went since the table was built.
pub struct HashedStore {
    table: Table,
    entries: ArrayList<Entry, CAPACITY>,
    removals: usize,
    ghost counted: { length (listed entries) ≡ filled (cells table) },
    ghost named: { ids (listed entries) ≡ map id_of (rows_in (cells table) (slots (listed entries))) },
    ghost rising: { Rising (rows_in (cells table) (slots (listed entries))) } by { Rising-prop (rows_in (cells table) (slots (listed entries))) },
    ghost matched: { Matched (cells table) (slots (listed entries)) },
    ghost worn: { deleted table ≤ removals },
    ghost recent: { removals ≤ 128 },
}

// Written out, so that a clause says what a clone is.
impl Clone for HashedStore {
    ghost use Rattle.std.specs.Prelude.{◌≡◌, ⊤};

    ghost is_clone = { λ s t. t ≡ s };

    ghost is_infallible = { λ _. ⊤ };

    fn clone(&self) -> Result<HashedStore, AllocError> {
        Ok(*self)
    }
}

impl Copy for HashedStore {}
