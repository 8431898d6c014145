// One store beside one naive list: the same calls, and whether the answers agree.
use crate::draws::Draws;
use crate::naive::Naive;
use refusals::refusal::Refusal;
use rows::row::PlainRow;
use rows::span::{FOREVER, Span};
use std::alloc::{AllocError, Global};
use stores::store::Store;

// Ids that are wanted besides small ones: some far apart, and some that share the place where a search by hash begins.
const FAR: [u32; 8] = [
    4_294_967_295,
    4_294_967_294,
    2_147_483_648,
    65_536,
    1_000_000,
    3_000_000_000,
    123_456_789,
    77_777,
];

const SHARED: [u32; 24] = [
    627, 1004, 1614, 2224, 2601, 3211, 3588, 4198, 4808, 5185, 5795, 6405, 6782, 7392, 7769, 8379,
    8989, 9366, 9976, 10353, 10586, 10963, 11573, 11950,
];

#[derive(Drop)]
pub(crate) struct Trial<S> {
    store: S,
    naive: Naive,
    draws: Draws,
    clock: u32,
    pub(crate) agreed: u32,
    pub(crate) refused: u32,
    pub(crate) fullest: usize,
}

impl<S: Store + Drop> Trial<S> {
    pub(crate) fn new(heap: Global, seed: u32) -> Trial<S> {
        Trial {
            store: S::new(),
            naive: Naive::new(heap, S::most_rows()),
            draws: Draws::new(seed),
            clock: 0,
            agreed: 0,
            refused: 0,
            fullest: 0,
        }
    }

    // One call of each kind by chance; adding is the commonest, so that the store fills.
    // A `match`: each call is told by a range of draws.
    pub(crate) fn step(&mut self) -> Result<(), AllocError> {
        let same = match self.draws.below(32) {
            0..=13 => self.adds()?,
            14..=16 => self.sets_end(),
            17..=19 => self.removes(),
            20..=23 => self.gets(),
            24..=26 => self.finds_first(),
            27..=30 => self.reads_place(),
            _ => self.purges(),
        };
        if same && self.store.count() == self.naive.count() {
            self.agreed = self.agreed.saturating_add(1);
        }
        self.fullest = self.fullest.max(self.store.count());
        Ok(())
    }

    fn draw_id(&mut self) -> u32 {
        match self.draws.below(8) {
            0 => FAR[(self.draws.next() % 8) as usize],
            1 => SHARED[(self.draws.next() % 24) as usize],
            _ => self.draws.below(400),
        }
    }

    fn draw_end(&mut self) -> u32 {
        match self.draws.below(8) {
            0 => FOREVER,
            1 => self.draws.next(),
            _ => self.clock.saturating_add(self.draws.below(500)),
        }
    }

    fn tell(&mut self, ours: Result<(), Refusal>, theirs: Result<(), Refusal>) -> bool {
        if ours.is_err() {
            self.refused = self.refused.saturating_add(1);
        }
        ours == theirs
    }

    fn adds(&mut self) -> Result<bool, AllocError> {
        let id = self.draw_id();
        let start = self.clock.saturating_add(self.draws.below(200));
        let end = self.draw_end();
        let Ok(span) = Span::new(start, end) else {
            return Ok(true);
        };
        let key = self.draws.below(10_000);
        let value = self.draws.below(100);
        let ours = self.store.add(id, span, key, value);
        let theirs = self.naive.add(PlainRow {
            id,
            span,
            key,
            value,
        })?;
        Ok(self.tell(ours, theirs))
    }

    fn sets_end(&mut self) -> bool {
        let id = self.draw_id();
        let end = self.draw_end();
        let ours = self.store.set_end(id, end);
        let theirs = self.naive.set_end(id, end);
        self.tell(ours, theirs)
    }

    fn removes(&mut self) -> bool {
        let id = self.draw_id();
        let ours = self.store.remove(id);
        let theirs = self.naive.remove(id);
        self.tell(ours, theirs)
    }

    fn gets(&mut self) -> bool {
        let id = self.draw_id();
        self.store.get(id) == self.naive.get(id)
    }

    fn finds_first(&mut self) -> bool {
        let id = self.draw_id();
        self.store.first_from(id) == self.naive.first_from(id)
    }

    fn reads_place(&mut self) -> bool {
        let place = self.draws.below(300) as usize;
        self.store.row_at(place) == self.naive.row_at(place)
    }

    // The clock goes on, so that now and then many rows go.
    fn purges(&mut self) -> bool {
        self.clock = self
            .clock
            .saturating_add(self.draws.below(20))
            .min(3_000_000_000);
        let below = self.clock.saturating_add(self.draws.below(100));
        let ours = self.store.purge(below).count;
        let theirs = self.naive.purge(below);
        ours == theirs
    }
}
