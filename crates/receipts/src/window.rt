// The record of a closing.

// The window's start and end, how many join rows fall into it, how many lines were handed out, and how many rows were
// purged on each side.
#[derive(Clone, Copy, PartialEq, Eq, Default, Debug)]
pub struct Window {
    pub start: u32,
    pub end: u32,
    pub count: usize,
    pub lines: usize,
    pub purged_left: usize,
    pub purged_right: usize,
}
