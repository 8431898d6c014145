// The hash of an id.
ghost use Rattle.std.specs.Prelude.{◌≡◌, ◌<◌};
ghost use Rattle.tables.specs.Cells.{home};

// Where the search for an id begins: the upper 9 bits of a product with 2^32 over the golden ratio.
pub fn home_of(id: u32) -> usize
    ensures value { result ≡ home id }
    ensures within { result < 512 }
{
    (id.wrapping_mul(2654435761) >> 23) as usize
}
