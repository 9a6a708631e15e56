// The best tree's links in the lent tree buffer.
ghost use Rattle.std.specs.Prelude.{◌≡◌, ◌≤◌, length};
ghost use Rattle.network.specs.Calls.{tree_with};
ghost use Rattle.kruskal_order.specs.Usable.{usable_order};
ghost use Rattle.solver.specs.Answer.{Tells, best_under};

use crate::of_network::best_in_order;
use crate::tree_buffer::put_links;
use network::Net;
use network::capacities::LINKS_HELD;

// The raised sum of the best tree that fits under the bounds, if one does. Its links go to the front of the buffer, whose other bytes stay.
pub fn best_links(net: Net, order: &[u8], bounds: &[i16], tree: &mut [u8]) -> Option<u32>
    requires { (order.now ≡ usable_order net.shape.rest net.ends.now net.sums.now) × (length bounds.now ≡ net.shape.p)
        × (net.shape.t ≤ length tree.old) }
    ensures { Tells net.entry.sums.now (best_under net.entry.shape net.entry.ends.now net.entry.sums.now net.entry.costs.now bounds.now) result
        × (tree.new
        ≡ tree_with (best_under net.entry.shape net.entry.ends.now net.entry.sums.now net.entry.costs.now bounds.now) tree.old) }
{
    let mut taken = [false; LINKS_HELD];
    let sum = best_in_order(net, order, bounds, &mut taken)?;
    put_links(tree, &taken, net.shape.t as usize);
    Some(sum)
}
