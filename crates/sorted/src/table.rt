// A sorted store: the rows in rising id order.
ghost use Rattle.std.specs.Prelude.{map};
ghost use Rattle.lists.specs.Lists.{listed};
ghost use Rattle.rows.specs.Rows.{plain};
ghost use Rattle.receipts.specs.Stores.{Rising};
ghost use Rattle.stores.proofs.Order.{Rising-prop};

use lists::list::ArrayList;
use rows::row::PlainRow;
use std::alloc::AllocError;

pub mod calls;

const CAPACITY: usize = 128;

pub struct SortedStore {
    rows: ArrayList<PlainRow, CAPACITY>,
    ghost rising: { Rising (map plain (listed rows)) } by { Rising-prop (map plain (listed rows)) },
}

// Written out, so that a clause says what a clone is.
impl Clone for SortedStore {
    ghost use Rattle.std.specs.Prelude.{◌≡◌, ⊤};

    ghost is_clone = { λ s t. t ≡ s };

    ghost is_infallible = { λ _. ⊤ };

    fn clone(&self) -> Result<SortedStore, AllocError> {
        Ok(*self)
    }
}

impl Copy for SortedStore {}
