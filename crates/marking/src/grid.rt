// The positions of the ceilings as numbers in a mixed radix, a digit for each ceiling, the first one highest.
ghost use Rattle.std.specs.Prelude.{◌≡◌, length};
ghost use Rattle.network.specs.Capacities.{ceilings_held};
ghost use Rattle.network.specs.Yard.{usable_at};
ghost use Rattle.stations.specs.Stations.{Stations};
ghost use Rattle.marking.specs.Digits.{Few, Steps, digits_by, total, weights};
ghost use Rattle.marking.specs.Parts.{Filled, ceiling_values};
ghost use Rattle.marking.specs.Sides.{sides_with, strides};
ghost use Rattle.marking.specs.Gridded.{Griddable, Gridded};

use crate::mark::Side;
use crate::values::different_values;
use network::Shape;
use network::capacities::CEILINGS_HELD;

// The box of all positions, with a side for each ceiling, whose count is that of the ceiling's values; and how many positions there are.
#[derive(Clone, Copy)]
pub struct Grid {
    pub sides: [Side; CEILINGS_HELD],
    pub total: usize,
}

// The different values of each ceiling over the usable links, at the front of its part of `values`, and their numbers.
// Parts are cut off by places: m may be 0, which chunks_exact does not take, and of a slice written through chunks_exact_mut a proof knows the length
// alone.
fn values_of(shape: Shape, ends: &[u8], costs: &[i16], values: &mut [i16]) -> [usize; CEILINGS_HELD]
    requires { Stations ends.now × Griddable shape.p shape.m costs.now values.old }
    ensures { (length result ≡ ceilings_held)
        × Filled (usable_at shape.rest ends.now) shape.m costs.now values.new result shape.p }
{
    let p = shape.p as usize;
    let m = shape.m;
    let mut counts = [0usize; CEILINGS_HELD];
    let mut from = 0;
    for i in 0..p {
        let to = from + m;
        counts[i] = different_values(shape.rest, ends, &costs[from..to], &mut values[from..to]);
        from = to;
    }
    counts
}

// Writes the sides of ceilings with so many values each, and returns the number of positions.
fn put_sides(counts: &[usize], sides: &mut [Side]) -> usize
    requires { Few counts.now × (length sides.old ≡ length counts.now) }
    ensures { (result ≡ total counts.now) × (sides.new ≡ sides_with (weights counts.now) counts.now) }
{
    let mut total = 1;
    for (i, &count) in counts.iter().enumerate().rev() {
        sides[i] = Side {
            stride: total,
            count,
        };
        total *= count;
    }
    total
}

// The grid of a network, with the values of ceiling i at the front of its part of `values`, which holds m for each.
// One slice, m for each ceiling: it is as long as the costs, whatever m is, and no heap is used.
pub fn grid_of(shape: Shape, ends: &[u8], costs: &[i16], values: &mut [i16]) -> Grid
    requires { Stations ends.now × Griddable shape.p shape.m costs.now values.old }
    ensures { Gridded (ceiling_values (usable_at shape.rest ends.now) shape.p shape.m costs.now) shape.m
        values.new result }
{
    let p = shape.p as usize;
    let counts = values_of(shape, ends, costs, values);
    let mut sides = [Side {
        stride: 0,
        count: 0,
    }; CEILINGS_HELD];
    let total = put_sides(&counts[..p], &mut sides[..p]);
    Grid { sides, total }
}

// Writes the places of position n.
pub fn put_places(n: usize, sides: &[Side], places: &mut [usize])
    requires { Steps (strides sides.now) × (length places.old ≡ length sides.now) }
    ensures { places.new ≡ digits_by (strides sides.now) n }
{
    let mut rest = n;
    for (i, side) in sides.iter().enumerate() {
        places[i] = rest / side.stride;
        rest %= side.stride;
    }
}
