// The best tree of a network under bounds, as flags.
ghost use Rattle.std.specs.Prelude.{false, ◌≡◌, length, replicate};
ghost use Rattle.network.specs.Capacities.{links_held};
ghost use Rattle.network.specs.Shaped.{net_of};
ghost use Rattle.kruskal_order.specs.Usable.{usable_order};
ghost use Rattle.solver.specs.Assembled.{Reports};
ghost use Rattle.solver.specs.OfNetwork.{net_best};

use crate::by_patterns::best_of;
use exceptions::patterns::put_patterns;
use network::Net;
use network::capacities::LINKS_HELD;

// The raised sum of the best tree of a network under a bound for each ceiling, if there is one, with its links in order of cost at hand, and its flags
// over flags that are not set.
pub fn best_in_order(net: Net, order: &[u8], bounds: &[i16], taken: &mut [bool]) -> Option<u32>
    requires { (order.now ≡ usable_order net.shape.rest net.ends.now net.sums.now) × (length bounds.now ≡ net.shape.p)
        × (taken.old ≡ replicate links_held false) }
    ensures { Reports (net_best (net_of net.entry.shape net.entry.ends.now net.entry.sums.now net.entry.costs.now) bounds.now) result
        taken.new }
{
    let shape = net.shape;
    let p = shape.p as usize;
    let k = shape.k;
    let m = shape.m;
    let mut patterns = [0u8; LINKS_HELD];
    put_patterns(net.costs, bounds, &mut patterns[..m]);
    best_of(
        net.ends,
        net.sums,
        shape.t,
        &patterns[..m],
        &k[..p],
        order,
        taken,
    )
}
