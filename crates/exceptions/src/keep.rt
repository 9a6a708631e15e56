// The exceptions that Kruskal's method keeps, run over the links of each pattern apart, in one pass.
// No heap: the first of a lent slice, as many as the number returned.
ghost use Rattle.std.specs.Prelude.{◌*◌, ◌≡◌, length};
ghost use Rattle.forest.specs.History.{Near};
ghost use Rattle.exceptions.specs.Patterns.{Patterned};
ghost use Rattle.kruskal_order.specs.Collect.{Holding};
ghost use Rattle.exceptions.specs.Select.{Selectable};
ghost use Rattle.exceptions.specs.Keep.{kept_exceptions};

use crate::admitted::fit_patterns;
use forest::Forest;
use network::capacities::PATTERNS_HELD;

// Writes the links of an order that may be exceptions and join two groups of the links kept of their pattern, and returns their number.
// A link that is kept changes what the next ones join: that is no test of each link alone, as `put_passing` takes.
pub fn put_exceptions(
    ends: &[u8],
    order: &[u8],
    patterns: &[u8],
    ks: &[u8],
    odd: &mut [u8],
) -> usize
    requires { (length ends.now ≡ 2 * length patterns.now) × Near ends.now order.now
        × Patterned (length patterns.now) ks.now patterns.now × Selectable patterns.now order.now odd.old }
    ensures { Holding (kept_exceptions ends.now patterns.now ks.now order.now) odd.new result }
{
    let fit = fit_patterns(ks);
    let alone = Forest::new();
    let mut forests = [alone; PATTERNS_HELD];
    let mut n: usize = 0;
    for &e in order {
        let i = e as usize;
        let pattern = patterns[i] as usize;
        if fit[pattern] {
            let a = ends[2 * i];
            let b = ends[2 * i + 1];
            let groups = forests[pattern];
            let new = groups.find(a);
            let old = groups.find(b);
            if new != old {
                forests[pattern] = groups.join(new, old);
                odd[n] = e;
                n += 1;
            }
        }
    }
    n
}
