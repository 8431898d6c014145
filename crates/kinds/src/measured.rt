// A payload that keeps a key and a value in range, and what such a payload measures.
ghost use Rattle.std.specs.Prelude.{◌≡◌, ℕ, ◌≤◌, true, ⊤};
ghost use Rattle.rows.specs.Kinds.{Kind, in_range};

use std::alloc::AllocError;
use std::marker::PhantomData;

pub mod kind;

// A kind of payload, told by its greatest value and by what least and most are for a key and a value in range. A measured
// value has them in range by its type, so a measure asks nothing of its caller.
pub trait Measure: Sized {
    ghost kind: { Kind };

    ghost topped: { kind.top ≤ 65535 };

    ghost ordered: { (key value : ℕ) → in_range kind key value ≡ true → kind.least key value ≤ kind.most key value };

    // The greatest value.
    fn top() -> u32
        ensures { result ≡ kind.top };

    // What a measured value stands for is at least this.
    fn least(measured: &Measured<Self>) -> u32
        ensures { result ≡ kind.least measured.now.key measured.now.value };

    // What a measured value stands for is at most this, or UNLIMITED.
    fn most(measured: &Measured<Self>) -> u32
        ensures { result ≡ kind.most measured.now.key measured.now.value };
}

// The key is that of a locker, and the value is at most the measure's greatest.
#[derive_where(PartialEq, Eq, Debug)]
pub struct Measured<M: Measure> {
    pub(crate) key: u32,
    pub(crate) value: u32,
    measure: PhantomData<M>,
    ghost locker: { key ≤ 9999 },
    ghost bounded: { value ≤ M.kind.top },
}

// Written out, since a struct with ghost fields derives no copy for a type parameter.
impl<M: Measure> Clone for Measured<M> {
    ghost is_clone = { λ x y. y ≡ x };

    ghost is_infallible = { λ _. ⊤ };

    fn clone(&self) -> Result<Measured<M>, AllocError> {
        Ok(*self)
    }
}

impl<M: Measure> Copy for Measured<M> {}
