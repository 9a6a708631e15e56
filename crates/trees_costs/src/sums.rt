// The sum cost of a list of links.
ghost use Rattle.std.specs.Prelude.{◌≡◌, ◌*◌, ◌≤◌, ◌<◌, length};
ghost use Rattle.network.specs.Capacities.{links_held, sum_held};
ghost use Rattle.network.specs.Yard.{sum_at};
ghost use Rattle.trees_costs.specs.Added.{Below, lowered_sum, sum_of};

use network::capacities::RAISE;

// The raised sum cost of a link.
pub fn sum_at(sums: &[u32], link: u8) -> u32
    requires { link < length sums.now }
    ensures { result ≡ sum_at sums.now link }
{
    sums[link as usize]
}

// The raised sum costs of the links, added up.
pub fn sum_of(sums: &[u32], links: &[u8]) -> u32
    requires { Below (length sums.now) links.now × (sum_of sums.now links.now < 4294967296) }
    ensures { result ≡ sum_of sums.now links.now }
{
    // A loop: for map and sum, the call's facts that each link has a sum cost and that the sum fits did not close by search.
    let mut sum = 0;
    for &link in links {
        sum += sum_at(sums, link);
    }
    sum
}

// The sum cost of `count` links, whose raised sum costs add up to `raised`.
pub fn lowered(raised: u32, count: usize) -> i32
    requires { (raised ≤ links_held * sum_held) × (count ≤ links_held) }
    ensures { result ≡ lowered_sum raised count }
{
    raised as i32 - count as i32 * RAISE
}
