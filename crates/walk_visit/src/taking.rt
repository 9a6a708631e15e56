// The plan of an answer taken into the frontier.
ghost use Rattle.walk_visit.specs.Answered.{Taken, Takes};

use network::{Costs, Refusal};
use planlist_frontier::insertion::insert_plan;

// Takes the plan of an answer, if it is one, into the frontier; returns the new number of plans.
pub fn take_in(
    out: &mut [u8],
    count: usize,
    slots: usize,
    answer: Result<Costs, Refusal>,
    links: &[u8],
) -> usize
    requires { Takes slots answer links.now count out.old }
    ensures { Taken slots answer links.now count result out.old out.new }
{
    let Ok(costs) = answer else {
        return count;
    };
    insert_plan(out, count, slots, costs, links)
}
