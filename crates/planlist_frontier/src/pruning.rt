// The plans of the frontier that a new one replaces, dropped in one pass by their sums.
ghost use Rattle.std.specs.Prelude.{◌≡◌, ◌*◌, ◌≤◌, length};
ghost use Rattle.network.specs.Capacities.{ceilings_held};
ghost use Rattle.network.specs.PlanList.{plan_size};
ghost use Rattle.encoding.specs.Blocks.{blocks};
ghost use Rattle.planlist_frontier.specs.Pruned.{pruned_level};

use buffers::moves::move_within;
use network::Costs;
use planlist_records::costs::{at_most, costs_at};

// Drops the plans that v is at most, up to the first with a higher sum; keeps the others in their order, and returns their count.
// Records are parts of one slice, which has no retain, and no heap is used.
pub fn prune(plans: &mut [u8], count: usize, size: usize, slots: usize, v: Costs) -> usize
    requires { (plan_size slots 0 ≤ size) × (count * size ≤ length plans.old) × (length v.y ≡ ceilings_held) }
    ensures { (result ≤ count) × (blocks size result plans.new ≡ pruned_level slots v (blocks size count plans.old)) }
{
    let mut kept = 0;
    for i in 0..count {
        let w = costs_at(plans, i * size, slots);
        if v.sum < w.sum {
            move_within(plans, i * size, kept * size, (count - i) * size);
            return kept + (count - i);
        }
        if at_most(v, w) {
            continue;
        }
        move_within(plans, i * size, kept * size, size);
        kept += 1;
    }
    kept
}
