// Finding one plan in the bytes of a list: the number, and where the plan's record starts.
ghost use Rattle.std.specs.Prelude.{◌≡◌, false, ◌+◌, ◌≤◌, ◌<◌, MatchResult, length};
ghost use Rattle.network.specs.PlanList.{plan_size};
ghost use Rattle.network.specs.Fetching.{damaged, fetch_number, head_count, head_slots, head_tree_size, plan_start};
ghost use Rattle.planlist_fetching.specs.Found.{FoundAt, NotFound};

use encoding::numbers::{mark_at, read_u16};
use network::limits::{MAX_CEILINGS, MAX_PLANS, MAX_TREE};
use network::records::HEAD_SIZE;
use network::{Refusal, Rule};
use planlist_records::records::{
    CEILINGS_AT, COUNT_AT, HEAD_MARK, TREE_SIZE_AT, plan_mark, plan_size, plan_slots,
};

// Whether the list is damaged, whichever plan is asked for.
pub fn is_damaged(list: &[u8]) -> bool
    ensures { result ≡ damaged list.now }
{
    if list.len() < HEAD_SIZE {
        return true;
    }
    let count = read_u16(list, COUNT_AT) as usize;
    let t = list[TREE_SIZE_AT];
    let p = list[CEILINGS_AT];
    let need = HEAD_SIZE + count * plan_size(plan_slots(p), t as usize);
    !mark_at(list, 0, HEAD_MARK)
        | (MAX_PLANS < count)
        | ((MAX_TREE as u8) < t)
        | ((MAX_CEILINGS as u8) < p)
        | (list.len() < need)
}

// Where plan r's record starts.
pub fn plan_start(list: &[u8], r: u32) -> usize
    requires { (damaged list.now ≡ false) × (r < head_count list.now) }
    ensures { (result ≡ plan_start list.now r)
        × (result + plan_size (head_slots list.now) (head_tree_size list.now) ≤ length list.now) }
{
    HEAD_SIZE + (r as usize) * plan_size(plan_slots(list[CEILINGS_AT]), list[TREE_SIZE_AT] as usize)
}

// Where plan r's record starts, or why it is not found.
pub fn find(list: &[u8], r: u32) -> Result<usize, Refusal>
    ensures { MatchResult result (FoundAt list.now r) (NotFound list.now r) }
{
    if is_damaged(list) {
        return Err(Refusal::of(Rule::DamagedList));
    }
    if read_u16(list, COUNT_AT) as u32 <= r {
        return Err(Refusal::of(Rule::NoSuchPlan));
    }
    let at = plan_start(list, r);
    if mark_at(list, at, plan_mark(plan_slots(list[CEILINGS_AT]))) {
        return Ok(at);
    }
    Err(Refusal::of(Rule::DamagedList))
}

// The number of fetching plan r: 0 if it is found.
// A number and the links by a call each, as C, README.md and docs/CLAIMS.md name them.
pub fn fetch_number(list: &[u8], r: u32) -> u8
    ensures { result ≡ fetch_number list.now r }
{
    match find(list, r) {
        Ok(_) => 0,
        Err(refusal) => refusal.rule.number(),
    }
}
