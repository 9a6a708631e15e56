// Lists with more plans than lines can write.
use crate::line::byte;
use crate::yard::{HEAD_MARK, PLAN_MARK, WIDE_PLAN_MARK};
use network::limits::MAX_PLANS;
use network::records::{HEAD_SIZE, NARROW_SLOTS, PLAN_FIELDS, WIDE_SLOTS};
use std::alloc::{AllocError, Global};

// One plan too many.
const PLANS: u16 = MAX_PLANS as u16 + 1;

// What a list of so many plans without links has at most.
const ROOM: usize = HEAD_SIZE + (PLAN_FIELDS + 2 * WIDE_SLOTS) * (MAX_PLANS + 1);

// The mark of a plan record with p ceilings, and how many it has room for.
fn form_of(p: u32) -> ([u8; 2], usize) {
    if p as usize == WIDE_SLOTS {
        (WIDE_PLAN_MARK, WIDE_SLOTS)
    } else {
        (PLAN_MARK, NARROW_SLOTS)
    }
}

// The head of a list with a plan count and p, of trees without links.
fn head(count: u32, p: u32) -> [u8; HEAD_SIZE] {
    let [m0, m1] = HEAD_MARK;
    let [c0, c1, ..] = count.to_le_bytes();
    [m0, m1, c0, c1, 0, 0, 0, 0, 0, byte(p)]
}

// Plan r after the others: two plans have each y1, which rises from 0 on, and each sum, which falls from 1,023 on; y2 and y3 are 0.
fn push_plan(list: &mut Vec<u8>, mark: [u8; 2], slots: usize, r: u16) -> Result<(), AllocError> {
    let y1 = r / 2 % 1024;
    let sum = u32::from(1023 - y1);
    list.extend_from_slice(&mark)?;
    list.extend_from_slice(&sum.to_le_bytes())?;
    list.extend_from_slice(&y1.to_le_bytes())?;
    for _ in 1..slots {
        list.extend_from_slice(&[0, 0])?;
    }
    Ok(())
}

// The list with a plan count and p; bytes past the plans counted are there as well.
pub fn list_of(count: u32, p: u32, alloc: Global) -> Result<Vec<u8>, AllocError> {
    let (mark, slots) = form_of(p);
    let mut list = Vec::from_slice(alloc, &head(count, p))?;
    for r in 0..PLANS {
        push_plan(&mut list, mark, slots, r)?;
    }
    list.resize(ROOM, 0)?;
    Ok(list)
}
