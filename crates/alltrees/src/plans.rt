// The list of plans, and its bytes.
use crate::listing::Tree;
use crate::small::{CEILINGS, Yard};
use std::alloc::{AllocError, Global};

// Bytes of a list's head.
pub const HEAD: usize = 10;

// Bytes of a plan record before its ceiling costs.
const FIELDS: usize = 6;

// The mark of a list, and those of plan records for up to two ceilings and for three.
const MARK: u16 = 0x4850;

const PLAN_MARK: u16 = 0x4C50;

const WIDE_PLAN_MARK: u16 = 0x4D50;

// Whether a tree is a plan: it is the least of the trees whose ceiling costs are at most its own, by sum, ceiling costs and its links. One that
// dominates it would be less, and so would the first of its vector.
fn is_plan(trees: &[Tree], tree: &Tree) -> bool {
    !trees
        .iter()
        .any(|other| other < tree && other.is_within(&tree.y))
}

// The plans of a yard with these trees, by rising vector.
pub fn plans_of(trees: &[Tree], alloc: Global) -> Result<Vec<&Tree>, AllocError> {
    let mut plans: Vec<&Tree> = trees
        .iter()
        .filter(|tree| is_plan(trees, tree))
        .collect(alloc)?;
    plans.sort_unstable();
    Ok(plans)
}

impl Yard<'_> {
    // Bytes of a plan record.
    pub fn plan_size(&self) -> usize {
        (2 * self.slots() + FIELDS).saturating_add(self.tree_size())
    }

    // The mark of a plan record.
    fn plan_mark(&self) -> u16 {
        if self.ranks.len() == CEILINGS {
            WIDE_PLAN_MARK
        } else {
            PLAN_MARK
        }
    }

    // A plan after the bytes of a list.
    fn push_plan(&self, list: &mut Vec<u8>, plan: &Tree) -> Result<(), AllocError> {
        list.extend_from_slice(&self.plan_mark().to_le_bytes())?;
        list.extend_from_slice(&plan.sum.to_le_bytes())?;
        for y in plan.y.iter().take(self.slots()) {
            list.extend_from_slice(&y.to_le_bytes())?;
        }
        list.extend_from_slice(&plan.links)
    }

    // A list of so many bytes with these plans, of which so many positions were solved; past the last plan all are 0.
    pub fn list(
        &self,
        plans: &[&Tree],
        solved: u32,
        size: usize,
        alloc: Global,
    ) -> Result<Vec<u8>, AllocError> {
        let [count0, count1, ..] = plans.len().to_le_bytes();
        let [s0, s1, s2, s3] = solved.to_le_bytes();
        let [t, ..] = self.tree_size().to_le_bytes();
        let [p, ..] = self.ranks.len().to_le_bytes();
        let mut list = Vec::new(alloc);
        list.extend_from_slice(&MARK.to_le_bytes())?;
        list.extend_from_slice(&[count0, count1, s0, s1, s2, s3, t, p])?;
        for plan in plans {
            self.push_plan(&mut list, plan)?;
        }
        list.resize(size, 0)?;
        Ok(list)
    }
}
