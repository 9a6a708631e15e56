// The walk over all positions.
ghost use Rattle.std.specs.Prelude.{◌≤◌, length};
ghost use Rattle.network.specs.PlanList.{buffer_need};
ghost use Rattle.marking.specs.Gridded.{network};
ghost use Rattle.walk.specs.Walked.{Outcome};

use kruskal_order::usable::order_usable;
use network::capacities::{CEILINGS_HELD, PLANS_HELD, TREE_HELD};
use planlist_records::records::plan_slots;
use solver::question::solve;
use walk_visit::gridded::GriddedNet;
use walk_visit::settling::settle;
use walk_visit::taking::take_in;

// What a walk says of itself: how many plans it has in the buffer, and how many positions it solved.
#[derive(Clone, Copy)]
pub struct Walked {
    pub plans: usize,
    pub solved: u32,
}

// Visits all positions and takes the plans into the buffer; gives up, with the counts so far, where the allowance is spent and a position is to be
// solved. The counts stand in the refusal too: what is proved of a walk that gives up speaks of them.
pub fn visit_all(gridded: GriddedNet, allowance: u32, out: &mut [u8]) -> Result<Walked, Walked>
    requires { buffer_need (network gridded.net) ≤ length out.old }
    ensures { Outcome (network gridded.entry.net) allowance out.new result }
{
    let net = gridded.net;
    let p = net.shape.p as usize;
    let t = net.shape.t as usize;
    let slots = plan_slots(net.shape.p);
    let usable = order_usable(net.shape.rest, net.ends, net.sums);
    let mut places = [0usize; CEILINGS_HELD];
    let mut bounds = [0i16; CEILINGS_HELD];
    let mut tree = [0u8; TREE_HELD];
    let mut marks = [false; PLANS_HELD];
    let mut plans = 0;
    let mut solved: u32 = 0;
    for n in 0..gridded.grid.total {
        if marks[n] {
            continue;
        }
        if solved == allowance {
            return Err(Walked { plans, solved });
        }
        gridded.put_position(n, &mut places[..p], &mut bounds[..p]);
        let answer = solve(net, usable.links(), &bounds[..p], &mut tree);
        settle(
            &mut marks,
            n,
            net.shape,
            gridded.values,
            gridded.grid,
            &places[..p],
            answer,
        );
        plans = take_in(out, plans, slots, answer, &tree[..t]);
        solved += 1;
    }
    Ok(Walked { plans, solved })
}
