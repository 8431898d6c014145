// Binary search by id.
ghost use Rattle.std.specs.Prelude.{◌≡◌, ℕ, ◌≤◌, length};
ghost use Rattle.std.specs.List.Sorted.{IsNonDecreasingBy};
ghost use Rattle.stores.specs.Places.{below};

use rows::row::PlainRow;

// What has an id.
pub trait Identified: Copy {
    ghost number: { Self → ℕ };

    fn id(&self) -> u32
        ensures { result ≡ number self.now };
}

impl Identified for u32 {
    ghost number = { λ id. id };

    fn id(&self) -> u32 {
        *self
    }
}

impl Identified for PlainRow {
    ghost number = { λ row. row.id };

    fn id(&self) -> u32 {
        self.id
    }
}

// The place of an id among things in rising id order: how many stand in front of the first whose id is not below it.
pub fn place_of<T: Identified>(items: &[T], id: u32) -> usize
    ensures within { result ≤ length items.now }
    ensures place { IsNonDecreasingBy T.Identified.number items.now → result ≡ below T.Identified.number id items.now }
{
    items.partition_point(|item| item.id() < id)
}
