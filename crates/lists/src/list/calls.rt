// What a list is asked, and what changes it.
ghost use Rattle.std.specs.Prelude.{◌≡◌, ◌+◌, ◌-◌, ◌<◌, ◌≤◌, ◌↔◌, Bool, [], length, take, filter, IsOk, OnOk, OnErr, IfErr, slice_get, slice_set, insert, remove};
ghost use Rattle.std.specs.Fn.{FnReturnsAt};
ghost use Rattle.lists.specs.Lists.{listed, Computes};

use crate::list::ArrayList;

impl<T: Copy + Default, const CAP: usize> ArrayList<T, CAP> {
    // A list without items. Each place has some item from the start, the type's default.
    #[inline]
    pub fn new() -> ArrayList<T, CAP>
        ensures { listed result ≡ [] }
    {
        ArrayList {
            items: Default::default(),
            count: 0,
        }
    }
}

impl<T: Copy, const CAP: usize> ArrayList<T, CAP> {
    // How many items it has.
    #[inline]
    pub fn len(&self) -> usize
        ensures { result ≡ length (listed self.now) }
    {
        self.as_slice().len()
    }

    // The items.
    #[inline]
    pub fn as_slice(&self) -> &[T]
        ensures { result.now ≡ listed self.now }
    {
        &self.items[..self.count]
    }

    // Puts an item at a place, and moves those from there on up; hands it back where the list is full or has no such place.
    #[inline]
    pub fn insert(&mut self, place: usize, item: T) -> Result<(), T>
        ensures variant { IsOk result ↔ ((place ≤ length (listed self.old)) × (length (listed self.old) < CAP)) }
        ensures ok { OnOk result (listed self.new ≡ insert (listed self.old) place item) }
        ensures err { OnErr result (listed self.new ≡ listed self.old) }
        ensures returned { IfErr result (λ back. back ≡ item) }
    {
        if self.count == CAP || place > self.count {
            return Err(item);
        }
        put(&mut self.items, self.count, place, item);
        self.count += 1;
        Ok(())
    }

    // Takes the item at a place away, if there is one, and moves those behind it down.
    #[inline]
    pub fn remove(&mut self, place: usize) -> Option<T>
        ensures value { result ≡ slice_get (listed self.old) place }
        ensures after { listed self.new ≡ remove (listed self.old) place }
    {
        if place >= self.count {
            return None;
        }
        let item = self.items[place];
        cut(&mut self.items, self.count, place);
        self.count -= 1;
        Some(item)
    }

    // Puts an item in the place of another; nothing happens where there is none.
    #[inline]
    #[tactic(auto, using(crate::proofs::Lengths::front_set))]
    pub fn set(&mut self, place: usize, item: T)
        ensures { listed self.new ≡ slice_set (listed self.old) place item }
    {
        if place < self.count {
            self.items[place] = item;
        }
    }

    // Keeps the items that a test is true of, in their order.
    #[inline]
    pub fn retain<F: Fn(&T) -> bool>(&mut self, keeps: F)
        requires { F.IsAlwaysCallable keeps }
        ensures kept { (p : T → Bool) → Computes p (FnReturnsAt F.Fn keeps) → listed self.new ≡ filter p (listed self.old) }
        ensures bound { length (listed self.new) ≤ length (listed self.old) }
    {
        self.count = keep_in_front(&mut self.items, self.count, keeps);
    }
}

// Puts an item at a place among the first `count`, behind which one more becomes part of them.
#[inline]
fn put<T: Copy>(items: &mut [T], count: usize, place: usize, item: T)
    requires room { count < length items.old }
    requires within { place ≤ count }
    ensures size { length items.new ≡ length items.old }
    ensures front { take (count + 1) items.new ≡ insert (take count items.old) place item }
{
    items[count] = item;
    if place < count {
        items[place..count + 1].rotate_right(1);
    }
}

// Takes the item at a place out of the first `count`.
#[inline]
fn cut<T: Copy>(items: &mut [T], count: usize, place: usize)
    requires room { count ≤ length items.old }
    requires within { place < count }
    ensures size { length items.new ≡ length items.old }
    ensures front { take (count - 1) items.new ≡ remove (take count items.old) place }
{
    items[place..count].rotate_left(1);
}

// Moves the items among the first `count` that a test is true of to the front, and tells how many they are.
#[inline]
fn keep_in_front<T: Copy, F: Fn(&T) -> bool>(items: &mut [T], count: usize, keeps: F) -> usize
    requires room { count ≤ length items.old }
    requires test { F.IsAlwaysCallable keeps }
    ensures within { result ≤ count }
    ensures size { length items.new ≡ length items.old }
    ensures front { (p : T → Bool) → Computes p (FnReturnsAt F.Fn keeps) → take result items.new ≡ filter p (take count items.old) }
{
    let mut front = 0;
    for i in 0..count {
        let item = items[i];
        if keeps(&item) {
            items[front] = item;
            front += 1;
        }
    }
    front
}
