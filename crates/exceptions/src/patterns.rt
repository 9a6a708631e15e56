// Above which ceilings' bounds the costs of a link lie, as digits of a number: the first ceiling's is the lowest.
// A number, since it indexes the groups that keep.rt holds for each set.
ghost use Rattle.std.specs.Prelude.{◌≡◌, ◌<◌, ◌*◌, ◌≤◌, length, replicate};
ghost use Rattle.order.specs.Order.{orderℤ};
ghost use Rattle.kmax.specs.KMax.{above as above_bound};
ghost use Rattle.kmax.specs.Digits.{flag};
ghost use Rattle.network.specs.Capacities.{ceilings_held};
ghost use Rattle.exceptions.specs.Patterns.{Room, patterns_of, with_digit};

// 1 where a cost is above a bound.
fn above(cost: i16, bound: i16) -> u8
    ensures { (result ≡ flag (above_bound orderℤ bound cost)) × (result < 2) }
{
    (bound < cost) as u8
}

// The patterns with a digit more in front, that of a ceiling with its column of costs.
fn add_digit(patterns: &mut [u8], column: &[i16], bound: i16)
    requires { (length column.now ≡ length patterns.old) × Room patterns.old }
    ensures { patterns.new ≡ with_digit column.now bound patterns.old }
{
    for (e, &cost) in column.iter().enumerate() {
        patterns[e] = above(cost, bound) + 2 * patterns[e];
    }
}

// Writes the patterns of all links, under a bound for each of the ceilings, over zeros.
pub fn put_patterns(costs: &[i16], bounds: &[i16], patterns: &mut [u8])
    requires { (length costs.now ≡ length bounds.now * length patterns.old) × (length bounds.now ≤ ceilings_held)
        × (patterns.old ≡ replicate (length patterns.old) 0) }
    ensures { patterns.new ≡ patterns_of (length patterns.old) costs.now bounds.now }
{
    let m = patterns.len();
    // By number: what holds after each ceiling did not carry over a proof by enumerate and rev.
    for i in (0..bounds.len()).rev() {
        add_digit(patterns, &costs[i * m..(i + 1) * m], bounds[i]);
    }
}
