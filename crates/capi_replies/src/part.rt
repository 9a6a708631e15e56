// The reply of fetching for C: the number, and where the link bytes are in the list.
ghost use Rattle.std.specs.Prelude.{◌≡◌};
ghost use Rattle.capi_replies.specs.Parts.{PartOf, part_of};

use planlist_fetching::fetching::fetch_start;
use planner_fetch::{fetch_links, fetch_number};

// A part of a plan list: `count` bytes from byte `start` on. It is empty, from 0 on, if the number is not 0.
#[repr(C)]
#[derive(Drop)]
pub struct Part {
    pub number: u8,
    pub start: usize,
    pub count: usize,
}

// The part of a list that holds the links of plan r.
pub fn part_of(list: &[u8], r: u32) -> Part
    ensures reply { result ≡ part_of list.now r }
    ensures links { PartOf list.now r result }
{
    let number = fetch_number(list, r);
    let start = fetch_start(list, r);
    let links = fetch_links(list, r);
    Part {
        number,
        start,
        count: links.len(),
    }
}
