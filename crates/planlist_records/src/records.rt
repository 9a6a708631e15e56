// The records of a plan list, a head and then one for each plan: their marks, and where their fields stand. The size of a plan record, and its bytes.
ghost use Rattle.std.specs.Prelude.{◌≡◌, ◌+◌, ◌*◌, ◌≤◌, ◌<◌, length};
ghost use Rattle.network.specs.Capacities.{ceilings_held};
ghost use Rattle.network.specs.PlanList.{ceiling_bytes, plan_bytes, plan_mark, plan_size, plan_slots};
ghost use Rattle.network.specs.Survey.{wide_slots};
ghost use Rattle.buffers.specs.Overwrite.{overwrite};

use buffers::copies::copy_in;
use encoding::writes::{write_i16, write_i32};
use network::Costs;
use network::records::{NARROW_SLOTS, PLAN_FIELDS, WIDE_SLOTS};

// The marks of a list head, of a plan record with room for two ceiling costs, and of one with room for three.
pub const HEAD_MARK: [u8; 2] = *b"PH";

const NARROW_MARK: [u8; 2] = *b"PL";

const WIDE_MARK: [u8; 2] = *b"PM";

// Where a list head has the plan count, the solved count, the links of a tree and the number of ceilings.
pub const COUNT_AT: usize = 2;

pub const SOLVED_AT: usize = 4;

pub const TREE_SIZE_AT: usize = 8;

pub const CEILINGS_AT: usize = 9;

// Where a plan record has its costs.
pub const SUM_AT: usize = 2;

pub const CEILING_COSTS_AT: usize = PLAN_FIELDS;

// How many ceiling costs a plan record of a yard with p ceilings has room for.
// Two slots or three: sizes are reckoned by the number, so no enum stands beside it.
pub fn plan_slots(p: u8) -> usize
    ensures { (result ≡ plan_slots p) × (result ≤ wide_slots) }
{
    if p as usize <= NARROW_SLOTS {
        NARROW_SLOTS
    } else {
        WIDE_SLOTS
    }
}

// The mark of a plan record with room for so many ceiling costs.
pub fn plan_mark(slots: usize) -> [u8; 2]
    ensures { result ≡ plan_mark slots }
{
    if slots <= NARROW_SLOTS {
        NARROW_MARK
    } else {
        WIDE_MARK
    }
}

// The size of a plan record with room for so many ceiling costs, of t links.
pub fn plan_size(slots: usize, t: usize) -> usize
    requires { (slots ≤ wide_slots) × (t < 256) }
    ensures { result ≡ plan_size slots t }
{
    PLAN_FIELDS + 2 * slots + t
}

// Writes ceiling costs, two bytes each. By places: of a slice written through chunks_exact_mut a proof knows the length alone.
fn write_ceilings(out: &mut [u8], at: usize, y: &[i16])
    requires { at + 2 * length y.now ≤ length out.old }
    ensures { out.new ≡ overwrite out.old at (ceiling_bytes y.now) }
{
    for (i, cost) in y.iter().enumerate() {
        write_i16(out, at + 2 * i, *cost);
    }
}

// Writes a plan record.
pub fn write_plan(out: &mut [u8], at: usize, slots: usize, v: Costs, links: &[u8])
    requires { (at + plan_size slots (length links.now) ≤ length out.old) × (slots ≤ wide_slots) × (length v.y ≡ ceilings_held) }
    ensures { out.new ≡ overwrite out.old at (plan_bytes slots v links.now) }
{
    let mark = plan_mark(slots);
    let y = v.y;
    copy_in(out, at, &mark);
    write_i32(out, at + SUM_AT, v.sum);
    write_ceilings(out, at + CEILING_COSTS_AT, &y[..slots]);
    copy_in(out, at + CEILING_COSTS_AT + 2 * slots, links);
}
