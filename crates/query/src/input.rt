// One side of a query: a store of rows, and the side's CTI.
use rows::payload::Payload;
use std::marker::{Model, PhantomData};
use stores::store::Store;

pub mod events;
pub mod parts;

// An input means its CTI, which is a finite time, and its held rows, whose payloads are of one kind.
#[derive(Drop)]
pub struct Input<P: Payload, S: Store> {
    store: S,
    cti: u32,
    kind: PhantomData<P>,
}

impl<P: Payload, S: Store> Model for Input<P, S> {
    ghost use Rattle.std.specs.Prelude.{◌≤◌};
    ghost use Rattle.receipts.specs.Queries.{Half};

    ghost Value = { Half };

    ghost view = { λ input. record { cti = input.cti; held = S.Store.rows input.store } };

    ghost invariant = { λ input. input.cti ≤ 4000000000 };
}
