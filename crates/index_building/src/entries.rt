// The plan numbers in the rising order of their keys, written at a buffer's front, two bytes each, low byte first.
ghost use Rattle.std.specs.Prelude.{◌≡◌, ◌*◌, ◌≤◌, length};
ghost use Rattle.order.specs.Columns.{falling, places_by, tabled};
ghost use Rattle.index_building.specs.Entries.{Held, downwards, entries_in};

use crate::ordering::order_numbers;
use encoding::writes::write_u16;

// Whether each key is below the one before it.
fn falls(keys: &[u64]) -> bool
    ensures { result ≡ falling keys.now }
{
    keys.is_sorted_by(|before, after| after < before)
}

// Writes the numbers below a count, down to 0.
fn write_downwards(index: &mut [u8], count: usize)
    requires { (count ≤ 65536) × (count * 2 ≤ length index.old) }
    ensures { index.new ≡ entries_in (downwards count) index.old }
{
    for r in 0..count {
        write_u16(index, r * 2, (count - 1 - r) as u16);
    }
}

// Writes numbers.
fn write_numbers(index: &mut [u8], numbers: &[u16])
    requires { length numbers.now * 2 ≤ length index.old }
    ensures { index.new ≡ entries_in numbers.now index.old }
{
    for (r, number) in numbers.iter().enumerate() {
        write_u16(index, r * 2, *number);
    }
}

// Sorts the plan numbers by key, and writes them.
fn write_sorted<const HELD: usize, const HALF: usize>(index: &mut [u8], keys: &mut [u64])
    requires { Held HELD HALF keys.old × (length keys.old * 2 ≤ length index.old) }
    ensures { index.new ≡ entries_in (places_by keys.old) index.old }
{
    let mut held = [0u16; HELD];
    let mut spare_keys = [0u64; HALF];
    let mut spare_numbers = [0u16; HALF];
    let numbers = &mut held[..keys.len()];
    order_numbers(keys, numbers, &mut spare_keys, &mut spare_numbers);
    write_numbers(index, numbers);
}

// Writes the plan numbers by rising key, those of equal keys by number. Where keys fall, as in each list of the planner with one ceiling, the last plan is
// the first, and nothing is sorted.
pub fn write_entries<const HELD: usize, const HALF: usize>(index: &mut [u8], keys: &mut [u64])
    requires { Held HELD HALF keys.old × (length keys.old * 2 ≤ length index.old) }
    ensures { index.new ≡ entries_in (places_by keys.old) index.old }
{
    if falls(keys) {
        write_downwards(index, keys.len());
    } else {
        write_sorted::<HELD, HALF>(index, keys);
    }
}
