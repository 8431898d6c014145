// The weights of the shelf: how many grams each count of its sensor stands for.
#![tactic(auto)]

ghost use Rattle.std.specs.Prelude.{◌≡◌, ◌≤◌, true, length};
ghost use Rattle.weights.specs.Grams.{rise, grams, grams_told, follows};

use table::GRAMS;

mod table;

// The last count of the sensor.
pub const LAST_COUNT: u32 = 4_095;

// The entry of a table that follows the rule from its first entry to its last.
fn entry(table: &[u32], count: usize) -> u32
    requires rule { follows rise 0 0 table.now ≡ true }
    requires size { length table.now ≡ 4096 }
    requires within { count ≤ 4095 }
    ensures { result ≡ grams count }
{
    table[count]
}

// The weight of a count in grams; none above the last count.
pub fn grams_of(count: u32) -> Option<u32>
    ensures { result ≡ grams_told count }
{
    if count > LAST_COUNT {
        return None;
    }
    Some(entry(&GRAMS, count as usize))
}
