// A new input, what an input holds, and its purge.
ghost use Rattle.std.specs.Prelude.{◌≡◌, ◌≤◌, length};
ghost use Rattle.receipts.specs.Queries.{new_half, purged};
ghost use Rattle.receipts.specs.Stores.{gone};

use crate::input::Input;
use rows::payload::Payload;
use std::marker::PhantomData;
use stores::store::{Purged, Store};

impl<P: Payload, S: Store> Input<P, S> {
    pub fn new() -> Input<P, S>
        ensures { result ≡ new_half }
    {
        Input {
            store: S::new(),
            cti: 0,
            kind: PhantomData,
        }
    }

    pub fn store(&self) -> &S
        ensures { S.Store.rows result.now ≡ self.now.held }
    {
        &self.store
    }

    // The CTI, which is finite.
    pub fn cti(&self) -> u32
        ensures value { result ≡ self.now.cti }
        ensures finite { result ≤ 4000000000 }
    {
        self.cti
    }

    // How many rows are held.
    pub fn held(&self) -> usize
        ensures { result ≡ length self.now.held }
    {
        self.store.count()
    }

    // Removes the rows that end below a time.
    pub fn purge(&mut self, below: u32) -> Purged
        ensures count { result.count ≡ gone below self.old.held }
        ensures after { self.new ≡ purged below self.old }
    {
        self.store.purge(below)
    }
}
