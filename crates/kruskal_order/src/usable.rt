// The usable links by cost, and by number where costs are equal.
ghost use Rattle.std.specs.Prelude.{◌≡◌, ◌≤◌, length, take};
ghost use Rattle.network.specs.Capacities.{links_held};
ghost use Rattle.stations.specs.Stations.{Stations};
ghost use Rattle.kruskal_order.specs.ByCost.{Cheap};
ghost use Rattle.kruskal_order.specs.Collect.{Holding};
ghost use Rattle.kruskal_order.specs.Usable.{usable_order};

use crate::links_by_cost::order_links;
use crate::passing::put_passing;
use network::capacities::LINKS_HELD;
use stations::is_usable;

// The usable links in order. No heap: the first `count` of an array.
#[derive(Drop)]
pub struct Order {
    pub links: [u8; LINKS_HELD],
    pub count: usize,
    pub ghost held: { count ≤ length links },
}

impl Order {
    // The usable links.
    pub fn links(&self) -> &[u8]
        ensures { result.now ≡ take self.now.count self.now.links }
    {
        &self.links[..self.count]
    }
}

// The usable links of a network in order.
pub fn order_usable(rest: u32, ends: &[u8], sums: &[u32]) -> Order
    requires { Stations ends.now × (length sums.now ≤ links_held) × Cheap sums.now }
    ensures { Holding (usable_order rest ends.now sums.now) result.links result.count }
{
    let m = sums.len();
    let order = order_links(sums);
    if rest == 0 {
        return Order {
            links: order,
            count: m,
        };
    }
    let mut links = [0u8; LINKS_HELD];
    let count = put_passing(
        &order[..m],
        |e| is_usable(rest, ends, e as usize),
        &mut links,
    );
    Order { links, count }
}
