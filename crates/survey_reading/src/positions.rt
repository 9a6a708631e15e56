// The limit of positions, number 19.
ghost use Rattle.std.specs.Prelude.{◌≡◌};
ghost use Rattle.frontier.specs.Frontier.{product};
ghost use Rattle.network.specs.Yard.{usable_at};
ghost use Rattle.marking.specs.Parts.{ceiling_values};
ghost use Rattle.survey_reading.specs.Positions.{Countable, too_many};

use marking::values::different_values;
use network::Shape;
use network::capacities::LINKS_HELD;
use network::limits::MAX_PLANS;

// The number of positions: the numbers of different values that the ceilings have over the usable links, multiplied.
fn count_positions(shape: Shape, ends: &[u8], costs: &[i16]) -> usize
    requires { Countable shape ends.now costs.now }
    ensures { result ≡ product (ceiling_values (usable_at shape.rest ends.now) shape.p shape.m costs.now) }
{
    let m = shape.m;
    let mut values = [0i16; LINKS_HELD];
    let mut total = 1;
    let mut left = costs;
    // By `split_at`, since m may be 0, which `chunks_exact` does not take.
    for _ in 0..shape.p {
        let (column, others) = left.split_at(m);
        total *= different_values(shape.rest, ends, column, &mut values[..m]);
        left = others;
    }
    total
}

// Whether there are more positions than a survey may have. They are counted only where there are links enough for that: m links have at most m to the
// power of p.
pub fn too_many_positions(shape: Shape, ends: &[u8], costs: &[i16]) -> bool
    requires { Countable shape ends.now costs.now }
    ensures { result ≡ too_many shape ends.now costs.now }
{
    MAX_PLANS < shape.m.pow(shape.p as u32) && MAX_PLANS < count_positions(shape, ends, costs)
}
