// A query over two payload kinds and two stores.
ghost use Rattle.std.specs.Prelude.{◌≤◌};

use crate::input::Input;
use rows::payload::Payload;
use stores::store::Store;

pub mod closing;
pub mod events;
pub mod opening;
pub mod questions;

// The greatest width of a window, in seconds: a week.
pub const WIDEST: u32 = 604_800;

// The windows' width, the closed time, which is the end of the last window that was closed, and both inputs. Clauses read a
// query by its setup and its state. It has no model: a model's value is data, and a setup has functions, those of its kinds.
// That the closed time is finite stands here, and that a CTI is finite in both inputs' type.
#[derive(Drop)]
pub struct Query<L: Payload, R: Payload, S: Store, T: Store> {
    width: u32,
    closed: u32,
    left: Input<L, S>,
    right: Input<R, T>,
    ghost some: { 1 ≤ width },
    ghost narrow: { width ≤ 604800 },
    ghost finite: { closed ≤ 4000000000 },
}
