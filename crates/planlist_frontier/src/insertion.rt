// A plan taken into the frontier: those that it replaces go, and it stands in its place.
ghost use Rattle.std.specs.Prelude.{◌+◌, ◌*◌, ◌≤◌, ◌<◌, drop, length};
ghost use Rattle.network.specs.PlanList.{head_size, plan_size};
ghost use Rattle.planlist_records.specs.Held.{Writable};
ghost use Rattle.planlist_frontier.specs.Taken.{Insertable, Inserted, PutInFront};

use crate::place::free_place;
use crate::pruning::prune;
use buffers::moves::move_within;
use network::Costs;
use network::records::HEAD_SIZE;
use planlist_records::records::{plan_size, write_plan};

// Drops the plans that v is at most out of `count` records, puts v's plan in front of the others, and returns the new count.
fn put(plans: &mut [u8], count: usize, slots: usize, v: Costs, links: &[u8]) -> usize
    requires { ((count + 1) * plan_size slots (length links.now) ≤ length plans.old) × Writable slots v × (length links.now < 256) }
    ensures { PutInFront slots v links.now count plans.old result plans.new }
{
    let size = plan_size(slots, links.len());
    let kept = prune(plans, count, size, slots, v);
    move_within(plans, 0, size, kept * size);
    write_plan(plans, 0, slots, v, links);
    kept + 1
}

// Puts a plan into the frontier of `count` records, and returns the new count. The records in front of its place stay as they are.
fn insert(plans: &mut [u8], count: usize, slots: usize, v: Costs, links: &[u8]) -> usize
    requires { Insertable slots v (length links.now) count plans.old }
    ensures { Inserted slots v links.now count plans.old result plans.new }
{
    let size = plan_size(slots, links.len());
    let Some(front) = free_place(plans, count, size, slots, v) else {
        return count;
    };
    let start = front * size;
    front + put(&mut plans[start..], count - front, slots, v, links)
}

// Puts a plan into the frontier that stands behind the place of the list head, and returns the new count.
pub fn insert_plan(out: &mut [u8], count: usize, slots: usize, v: Costs, links: &[u8]) -> usize
    requires { (head_size ≤ length out.old) × Insertable slots v (length links.now) count (drop head_size out.old) }
    ensures { Inserted slots v links.now count (drop head_size out.old) result (drop head_size out.new) }
{
    insert(&mut out[HEAD_SIZE..], count, slots, v, links)
}
