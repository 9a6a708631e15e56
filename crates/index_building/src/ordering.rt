// The numbers of plans in the rising order of their keys.
ghost use Rattle.std.specs.Prelude.{◌≡◌, ◌≤◌, length};
ghost use Rattle.order.specs.Columns.{places_by, tabled};
ghost use Rattle.order.specs.Rows.{Room};

use index_sorting::sorting::sort_rows;

// The numbers from 0 on.
fn count_up(numbers: &mut [u16])
    requires { length numbers.old ≤ 65536 }
    ensures { numbers.new ≡ tabled (λ r. r) (length numbers.old) }
{
    for (r, number) in numbers.iter_mut().enumerate() {
        *number = r as u16;
    }
}

// The plan numbers by rising key, those of equal keys by number.
pub fn order_numbers(
    keys: &mut [u64],
    numbers: &mut [u16],
    spare_keys: &mut [u64],
    spare_numbers: &mut [u16],
)
    requires { (length numbers.old ≤ 65536) × Room keys.old numbers.old spare_keys.old spare_numbers.old }
    ensures { numbers.new ≡ places_by keys.old }
{
    count_up(numbers);
    sort_rows(keys, numbers, spare_keys, spare_numbers);
}
