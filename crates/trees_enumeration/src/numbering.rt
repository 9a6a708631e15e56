// Tree r, from 0 in dictionary order, handed out in a lent tree buffer with its costs.
ghost use Rattle.std.specs.Prelude.{◌≡◌, ◌≤◌, length};
ghost use Rattle.network.specs.Shaped.{net_of};
ghost use Rattle.trees_enumeration.specs.Numbering.{numbered_after, numbered_by};

use crate::growing::Trees;
use buffers::copies::copy_in;
use network::{Costs, Net, Refusal, Rule};
use trees_costs::costs::tree_costs;

// Tree r: its costs, with its links in the first t bytes of the tree buffer, or that there is no such tree.
pub fn hand_out(net: Net, r: u32, tree: &mut [u8]) -> Result<Costs, Refusal>
    requires { net.shape.t ≤ length tree.old }
    ensures reply { result ≡ numbered_by (net_of net.entry.shape net.entry.ends.now net.entry.sums.now net.entry.costs.now) r }
    ensures leaves { tree.new ≡ numbered_after (net_of net.entry.shape net.entry.ends.now net.entry.sums.now net.entry.costs.now) r tree.old }
{
    let mut trees = Trees::of(net.shape, net.ends);
    trees.first();
    let mut left = r;
    while trees.found {
        if left == 0 {
            let links = trees.links();
            copy_in(tree, 0, links);
            return Ok(tree_costs(net.shape, net.sums, net.costs, links));
        }
        left -= 1;
        trees.advance();
    }
    Err(Refusal::of(Rule::NoSuchPlan))
}
