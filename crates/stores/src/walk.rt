// A walk over a store's rows in id order.
ghost use Rattle.std.specs.Prelude.{◌≡◌};
ghost use Rattle.std.specs.Iterator.{YieldsFirstBy, item_count};
ghost use Rattle.rows.specs.Rows.{plain};

use crate::store::Store;
use rows::row::PlainRow;
use std::marker::Model;

// A walk means the rows that it has not given yet.
#[derive(Drop)]
pub struct StoreRows<'a, S: Store> {
    store: &'a S,
    place: usize,
}

impl<'a, S: Store> Model for StoreRows<'a, S> {
    ghost use Rattle.std.specs.Prelude.{List, drop};
    ghost use Rattle.rows.specs.Rows.{Plain};

    ghost Value = { List Plain };

    ghost view = { λ walk. drop walk.place (S.Store.rows walk.store.now) };
}

// The rows of a store, from the first on.
pub fn rows_of<S: Store>(store: &S) -> StoreRows<'_, S>
    ensures { result ≡ S.Store.rows store.now }
{
    StoreRows { store, place: 0 }
}

impl<'a, S: Store> Iterator for StoreRows<'a, S> {
    type Item = PlainRow;

    ghost next_gives = { YieldsFirstBy plain (λ left. left) };

    ghost remaining = { item_count (λ left. left) };

    fn next(&mut self) -> Option<PlainRow> {
        let row = self.store.row_at(self.place)?;
        self.place += 1;
        Some(row)
    }
}
