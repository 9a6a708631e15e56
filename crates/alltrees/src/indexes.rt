// The index of a list of plans, and what a lookup in it must give.
use crate::answers::DIRT;
use crate::listing::Tree;
use std::alloc::{AllocError, Global};

// An index of a list with these plans in a buffer of so many bytes, which is as it was past the index: plans stand by first ceiling cost, sum, second
// ceiling cost and number.
pub fn index_of(plans: &[&Tree], size: usize, alloc: Global) -> Result<Vec<u8>, AllocError> {
    let mut entries: Vec<(i16, i32, i16, usize)> = plans
        .iter()
        .enumerate()
        .map(|(r, plan)| (plan.y[0], plan.sum, plan.y[1], r))
        .collect(alloc)?;
    entries.sort_unstable();
    let mut index = Vec::new(alloc);
    for (_, _, _, r) in entries {
        let [low, high, ..] = r.to_le_bytes();
        index.extend_from_slice(&[low, high])?;
    }
    index.resize(size, DIRT)?;
    Ok(index)
}

// The number of the first plan that has the sum of a tree, if there is one.
pub fn first_with_sum(plans: &[&Tree], tree: &Tree) -> Option<usize> {
    plans.iter().position(|plan| plan.sum == tree.sum)
}
