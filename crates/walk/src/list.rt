// The list of plans.
ghost use Rattle.std.specs.Prelude.{◌≡◌, ◌+◌, ◌*◌, ◌≤◌, length};
ghost use Rattle.network.specs.Calls.{plans_after, plans_checked, status};
ghost use Rattle.network.specs.Capacities.{plans_held};
ghost use Rattle.network.specs.PlanList.{head_size, plan_size, plan_slots};
ghost use Rattle.marking.specs.Gridded.{network};
ghost use Rattle.walk.specs.Call.{CostsHeld};

use crate::positions::visit_all;
use marking::grid::grid_of;
use network::capacities::{CEILINGS_HELD, LINKS_HELD};
use network::records::HEAD_SIZE;
use network::{Net, Refusal, Rule};
use planlist_frontier::ending::{clear, finish};
use planlist_records::records::{plan_size, plan_slots};
use walk_visit::gridded::GriddedNet;

// What a list buffer needs, by the numbers of positions, of links of a tree and of ceilings.
fn need(total: usize, t: u8, p: u8) -> usize
    requires { total ≤ plans_held }
    ensures { result ≡ head_size + total * plan_size (plan_slots p) t }
{
    HEAD_SIZE + total * plan_size(plan_slots(p), t as usize)
}

// Lists the plans of a network by the threshold walk: declines a buffer below its need, and gives up, with the buffer cleared, where more positions
// would be solved than allowed.
pub fn list_plans(net: Net, allowance: u32, out: &mut [u8]) -> Result<(), Refusal>
    ensures reply { result ≡ plans_checked (network net.entry) allowance (length out.old) }
    ensures leaves { out.new ≡ plans_after (network net.entry) allowance out.old }
    ensures held { CostsHeld (network net.entry) (status result) }
{
    let size = net.costs.len();
    let mut values = [0i16; CEILINGS_HELD * LINKS_HELD];
    let grid = grid_of(net.shape, net.ends, net.costs, &mut values[..size]);
    if out.len() < need(grid.total, net.shape.t, net.shape.p) {
        return Err(Refusal::of(Rule::ShortBuffer));
    }
    let gridded = GriddedNet {
        net,
        values: &values[..size],
        grid,
    };
    match visit_all(gridded, allowance, out) {
        Ok(walked) => {
            finish(out, walked.plans, walked.solved, net.shape.t, net.shape.p);
            Ok(())
        }
        Err(_) => {
            clear(out);
            Err(Refusal::of(Rule::AllowanceSpent))
        }
    }
}
