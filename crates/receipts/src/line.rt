// A receipt line: a pair of rows that join.

// The higher start and the lower end of the two rows, their key, and what the payload of each stands for at least and
// at most.
#[derive(Clone, Copy, PartialEq, Eq, Default, Debug)]
pub struct Line {
    pub left_id: u32,
    pub right_id: u32,
    pub start: u32,
    pub end: u32,
    pub key: u32,
    pub left_least: u32,
    pub left_most: u32,
    pub right_least: u32,
    pub right_most: u32,
}
