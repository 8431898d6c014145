// What a run tells.
use refusals::fault::Fault;

// How many lines and window records a run wrote, its closed time, how many rows each side still holds, and how it ended.
#[derive(Clone, Copy, PartialEq, Eq, Debug)]
pub struct RunReport {
    pub lines: usize,
    pub windows: usize,
    pub closed: u32,
    pub held_left: usize,
    pub held_right: usize,
    pub ending: Result<(), Fault>,
}
