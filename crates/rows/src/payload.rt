// What a row carries: a payload of some kind, which means a key and a value.
ghost use Rattle.std.specs.Prelude.{◌≡◌, ℕ, ◌≤◌, true};
ghost use Rattle.rows.specs.Kinds.{Kind, Pair, in_range, pair_made, made_pair};

use refusals::refusal::Refusal;

// The last key: lockers are numbered from 0.
pub const LAST_KEY: u32 = 9_999;

// Stands as a most where no weight is known that a payload cannot pass.
pub const UNLIMITED: u32 = 4_294_967_295;

// A kind of payload. Its meaning is the kind's top value and what least and most are for a key and a value.
pub trait Payload: Copy {
    ghost kind: { Kind };

    ghost pair: { Self → Pair };

    ghost topped: { kind.top ≤ 65535 };

    ghost ordered: { (key value : ℕ) → in_range kind key value ≡ true → kind.least key value ≤ kind.most key value };

    ghost ranged: { (x : Self) → in_range kind (pair x).key (pair x).value ≡ true };

    ghost back: { (x y : Self) → pair x ≡ pair y → x ≡ y };

    // The greatest value of the kind.
    fn top() -> u32
        ensures { result ≡ kind.top };

    fn key(&self) -> u32
        ensures { result ≡ (pair self.now).key };

    fn value(&self) -> u32
        ensures { result ≡ (pair self.now).value };

    // What the payload stands for is at least this.
    fn least(&self) -> u32
        ensures { result ≡ kind.least (pair self.now).key (pair self.now).value };

    // What the payload stands for is at most this, or UNLIMITED.
    fn most(&self) -> u32
        ensures { result ≡ kind.most (pair self.now).key (pair self.now).value };

    // The payload of a key and a value, or BadPayload where one is out of range.
    fn make(key: u32, value: u32) -> Result<Self, Refusal>
        ensures { made_pair pair result ≡ pair_made kind key value };
}
