// A list of at most CAP items that lies in the value itself, so that a copy of the value is a copy of the list.
ghost use Rattle.std.specs.Prelude.{◌≡◌, ◌≤◌, ⊤, length};

use std::alloc::AllocError;

pub mod calls;

// Behind the first `count` items stand items that mean nothing.
pub struct ArrayList<T, const CAP: usize> {
    items: [T; CAP],
    count: usize,
    ghost whole: { length items ≡ CAP },
    ghost within: { count ≤ CAP },
}

// Written out, since a struct with ghost fields derives no copy for a type parameter.
impl<T: Copy, const CAP: usize> Clone for ArrayList<T, CAP> {
    ghost is_clone = { λ x y. y ≡ x };

    ghost is_infallible = { λ _. ⊤ };

    fn clone(&self) -> Result<ArrayList<T, CAP>, AllocError> {
        Ok(*self)
    }
}

impl<T: Copy, const CAP: usize> Copy for ArrayList<T, CAP> {}
