// The ceilings question on a network: the best tree's costs, or that nothing fits, and its links in the lent tree buffer.
ghost use Rattle.std.specs.Prelude.{◌≡◌, ◌≤◌, length};
ghost use Rattle.network.specs.Calls.{tree_with};
ghost use Rattle.network.specs.Shaped.{net_of};
ghost use Rattle.kruskal_order.specs.Usable.{usable_order};
ghost use Rattle.solver.specs.Answer.{best_under};
ghost use Rattle.solver.specs.Question.{answer_of};

use crate::links::best_links;
use network::{Costs, Net, Refusal, Rule};
use trees_costs::costs::costs_with;

// The costs of the best tree under bounds, with its links in the tree buffer.
pub fn solve(net: Net, order: &[u8], bounds: &[i16], tree: &mut [u8]) -> Result<Costs, Refusal>
    requires { (order.now ≡ usable_order net.shape.rest net.ends.now net.sums.now) × (length bounds.now ≡ net.shape.p)
        × (net.shape.t ≤ length tree.old) }
    ensures { (result ≡ answer_of (net_of net.entry.shape net.entry.ends.now net.entry.sums.now net.entry.costs.now)
        (best_under net.entry.shape net.entry.ends.now net.entry.sums.now net.entry.costs.now bounds.now))
        × (tree.new
        ≡ tree_with (best_under net.entry.shape net.entry.ends.now net.entry.sums.now net.entry.costs.now bounds.now) tree.old) }
{
    let sum = best_links(net, order, bounds, tree).ok_or(Refusal::of(Rule::NothingFits))?;
    let t = net.shape.t as usize;
    Ok(costs_with(net.shape, net.costs, &tree[..t], sum))
}
