// Events: what a source brings, one at a time.
use crate::row::Row;

pub mod judging;
pub mod printed;

// An insert brings a row; a retraction repeats a row's fields and gives it a new end; a CTI says that nothing older
// than its time will come.
#[derive(Clone, Copy, PartialEq, Eq, Debug)]
pub enum Event<P> {
    Insert(Row<P>),
    Retraction { row: Row<P>, new_end: u32 },
    Cti(u32),
}
