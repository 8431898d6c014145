// Numbers that look drawn by chance, and are the same in every run.

// A generator by shifts and exclusive ors.
#[derive(Clone, Copy)]
pub(crate) struct Draws {
    state: u32,
}

impl Draws {
    pub(crate) fn new(seed: u32) -> Draws {
        Draws { state: seed }
    }

    pub(crate) fn next(&mut self) -> u32 {
        let mut x = self.state;
        x ^= x.wrapping_shl(13);
        x ^= x >> 17;
        x ^= x.wrapping_shl(5);
        self.state = x;
        x
    }

    // A number below `bound`, and 0 where there is none, so that a trial goes on.
    pub(crate) fn below(&mut self, bound: u32) -> u32 {
        let x = self.next();
        if bound == 0 { 0 } else { x % bound }
    }
}
