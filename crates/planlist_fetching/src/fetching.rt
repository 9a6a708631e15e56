// Fetching one plan from the bytes of a list.
ghost use Rattle.std.specs.Prelude.{◌≡◌};
ghost use Rattle.network.specs.Fetching.{fetch_links, fetch_start};

use crate::finding::find;
use planlist_records::records::{CEILINGS_AT, TREE_SIZE_AT, plan_size, plan_slots};

// Where the links of plan r start in the list; 0 if it is not found.
pub fn fetch_start(list: &[u8], r: u32) -> usize
    ensures { result ≡ fetch_start list.now r }
{
    match find(list, r) {
        Ok(at) => at + plan_size(plan_slots(list[CEILINGS_AT]), 0),
        Err(_) => 0,
    }
}

// The links of plan r, a part of the list; an empty part if it is not found.
pub fn fetch_links<'a>(list: &'a [u8], r: u32) -> &'a [u8]
    ensures { result.now ≡ fetch_links list.now r }
{
    match find(list, r) {
        Ok(at) => {
            let slots = plan_slots(list[CEILINGS_AT]);
            let start = at + plan_size(slots, 0);
            let end = at + plan_size(slots, list[TREE_SIZE_AT] as usize);
            &list[start..end]
        }
        Err(_) => &list[..0],
    }
}
