// The end of a list in a lent buffer: the frontier that stands behind the place of the head is finished, or the buffer is cleared.
ghost use Rattle.std.specs.Prelude.{◌≡◌, ◌+◌, ◌*◌, ◌≤◌, length, replicate};
ghost use Rattle.network.specs.Capacities.{plans_held};
ghost use Rattle.network.specs.PlanList.{head_size, plan_size, plan_slots};
ghost use Rattle.planlist_frontier.specs.Finished.{finished};

use buffers::copies::clear_from;
use network::records::HEAD_SIZE;
use planlist_records::head::write_head;
use planlist_records::records::{plan_size, plan_slots};

// Finishes a list of `count` plans of t links: the head in front of them, and zeros behind them.
pub fn finish(out: &mut [u8], count: usize, solved: u32, t: u8, p: u8)
    requires { (count ≤ plans_held) × (head_size + count * plan_size (plan_slots p) t ≤ length out.old) }
    ensures { out.new ≡ finished out.old count solved t p }
{
    write_head(out, count as u16, solved, t, p);
    clear_from(
        out,
        HEAD_SIZE + count * plan_size(plan_slots(p), t as usize),
    );
}

// Clears the whole buffer.
pub fn clear(out: &mut [u8])
    ensures { out.new ≡ replicate (length out.old) 0 }
{
    clear_from(out, 0);
}
