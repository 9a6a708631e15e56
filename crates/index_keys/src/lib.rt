// The key of a plan in the index: one number that compares as y1, sum and y2 do, one after the other; in a list without ceilings, as sums do.
// One number, since a number is compared in one step, and the columns that are sorted hold numbers.
#![tactic(auto)]

ghost use Rattle.std.specs.Prelude.{false, ◌≡◌, ◌+◌, ◌≤◌, length};
ghost use Rattle.network.specs.Survey.{narrow_slots};
ghost use Rattle.network.specs.PlanList.{head_size, plan_size};
ghost use Rattle.network.specs.Fetching.{damaged, head_count};
ghost use Rattle.index_keys.specs.Key as spec;

use encoding::numbers::{mark_at, read_u16, read_u32};
use network::records::HEAD_SIZE;
use network::{Refusal, Rule};
use planlist_records::records::{
    CEILING_COSTS_AT, CEILINGS_AT, SUM_AT, TREE_SIZE_AT, plan_mark, plan_size, plan_slots,
};

// Lists of at most so many plans have columns of this size: to clear longer ones would take most of the time.
pub const SHORT: usize = 128;

// The two's complement u of a ceiling cost, raised by half of its range, round its end: it compares as the signed number does.
#[tactic(auto, unfolding(crate::specs::Key::raised))]
pub fn raised16(u: u16) -> u16
    ensures { result ≡ spec.raised16 u }
{
    u.wrapping_add(1 << 15)
}

// y1, sum and y2, raised, as one number.
#[tactic(auto, unfolding(crate::specs::Key::packed))]
fn packed(y1: u16, sum: u32, y2: u16) -> u64
    ensures { result ≡ spec.packed y1 sum y2 }
{
    (y1 as u64 * (1 << 32) + sum as u64) * (1 << 16) + y2 as u64
}

// The y1 in a key.
#[tactic(auto, unfolding(crate::specs::Key::y1_in))]
pub fn y1_in(key: u64) -> u16
    ensures { result ≡ spec.y1_in key }
{
    (key / (1 << 48)) as u16
}

// The sum in a key.
#[tactic(auto, unfolding(crate::specs::Key::sum_in))]
pub fn sum_in(key: u64) -> u32
    ensures { result ≡ spec.sum_in key }
{
    (key / (1 << 16) % (1 << 32)) as u32
}

// The key of the plan whose record is at an index, with its sum raised too; in a list without ceilings y1 and y2 are left out.
fn key_at(list: &[u8], at: usize) -> u64
    requires { (head_size ≤ length list.now) × (at + plan_size narrow_slots 0 ≤ length list.now) }
    ensures { result ≡ spec.key_at list.now at }
{
    let sum = read_u32(list, at + SUM_AT).wrapping_add(1 << 31);
    if list[CEILINGS_AT] == 0 {
        return packed(0, sum, 0);
    }
    let y1 = raised16(read_u16(list, at + CEILING_COSTS_AT));
    let y2 = raised16(read_u16(list, at + CEILING_COSTS_AT + 2));
    packed(y1, sum, y2)
}

// The keys of all plans, in the order of the list, or the refusal of a list in which a plan has no mark; keys after a wrong mark are not read.
pub fn read_keys(list: &[u8], keys: &mut [u64]) -> Result<(), Refusal>
    requires { (damaged list.now ≡ false) × (length keys.old ≡ head_count list.now) }
    ensures { spec.KeysRead list.now keys.new result }
{
    let slots = plan_slots(list[CEILINGS_AT]);
    let mark = plan_mark(slots);
    let size = plan_size(slots, list[TREE_SIZE_AT] as usize);
    let mut at = HEAD_SIZE;
    for key in keys {
        if !mark_at(list, at, mark) {
            return Err(Refusal::of(Rule::DamagedList));
        }
        *key = key_at(list, at);
        at += size;
    }
    Ok(())
}
