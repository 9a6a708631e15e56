// The place of a new plan among the records of the frontier: those with a lower sum are passed by halving, and the others one after the other.
// No heap: records of one size stand at the front of a lent buffer, so the number of them and their size go beside it.
ghost use Rattle.std.specs.Prelude.{◌≡◌, ◌+◌, ◌≤◌, MatchOption, length};
ghost use Rattle.network.specs.Capacities.{ceilings_held};
ghost use Rattle.network.specs.PlanList.{plan_size};
ghost use Rattle.encoding.specs.Blocks.{blocks};
ghost use Rattle.planlist_frontier.specs.Lower.{Ordered, lower_sums};
ghost use Rattle.planlist_frontier.specs.Place.{free_place};

use network::Costs;
use planlist_records::costs::{at_most, costs_at, in_order, sum_in};

// The number of records before the first whose sum is not lower, by halving: records are parts of one slice, which no method of slices halves.
fn below(plans: &[u8], count: usize, size: usize, sum: i32) -> usize
    requires { Ordered size count plans.now }
    ensures { result ≡ lower_sums sum (blocks size count plans.now) }
{
    let mut low: usize = 0;
    let mut left = count;
    while 0 < left {
        let half = left / 2;
        let mid = low + half;
        if sum <= sum_in(plans, mid * size) {
            left = half;
        } else {
            low = mid + 1;
            left -= half + 1;
        }
    }
    low
}

// The number of records that stand before v, unless one of no lower sum before that place is at most v.
pub fn free_place(plans: &[u8], count: usize, size: usize, slots: usize, v: Costs) -> Option<usize>
    requires { Ordered size count plans.now × (plan_size slots 0 ≤ size) × (length v.y ≡ ceilings_held) }
    ensures { MatchOption result (free_place slots v (blocks size count plans.now) ≡ count + 1)
        (λ place. (place ≤ count) × (free_place slots v (blocks size count plans.now) ≡ place)) }
{
    let low = below(plans, count, size, v.sum);
    for i in low..count {
        let w = costs_at(plans, i * size, slots);
        if at_most(w, v) {
            return None;
        }
        if in_order(v, w) {
            return Some(i);
        }
    }
    Some(count)
}
