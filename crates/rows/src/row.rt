// Rows: an id, a span and a payload.
ghost use Rattle.std.specs.Prelude.{◌≤◌};

use crate::span::Span;

pub mod forms;

// A row with its payload.
#[derive(Clone, Copy, PartialEq, Eq, Debug)]
pub struct Row<P> {
    pub id: u32,
    pub span: Span,
    pub payload: P,
}

// A row as a store keeps it: the payload as key and value.
#[derive(Clone, Copy, PartialEq, Eq, Debug)]
pub struct PlainRow {
    pub id: u32,
    pub span: Span,
    pub key: u32,
    pub value: u32,
    ghost numbered: { id ≤ 4294967295 },
}
