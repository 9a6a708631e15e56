// The walk of document 01, for its solved count and for what its list needs. A position picks a value of each ceiling; positions are visited by falling
// values, first ceiling first. What a solved position marks is a box: its own values, and after them the least that are marked.
use crate::listing::Tree;
use crate::plans::HEAD;
use crate::small::{CEILINGS, LINKS, Yard};
use std::alloc::{AllocError, Global};

// A value of each ceiling, 0 where it is absent.
type Position = [i16; CEILINGS];

// The positions between two, ceiling by ceiling.
#[derive(Clone, Copy)]
struct Marked {
    least: Position,
    greatest: Position,
}

impl Marked {
    // Whether a position is among them.
    fn contains(&self, position: &Position) -> bool {
        self.least
            .iter()
            .zip(position)
            .all(|(low, value)| low <= value)
            && position
                .iter()
                .zip(&self.greatest)
                .all(|(value, high)| value <= high)
    }
}

// Each position with each of these values for a ceiling, in their order.
fn extended(
    positions: &[Position],
    ceiling: usize,
    values: &[i16],
    alloc: Global,
) -> Result<Vec<Position>, AllocError> {
    let mut all = Vec::new(alloc);
    for position in positions {
        push_each(&mut all, *position, ceiling, values)?;
    }
    Ok(all)
}

// One position with each of these values for a ceiling.
fn push_each(
    all: &mut Vec<Position>,
    position: Position,
    ceiling: usize,
    values: &[i16],
) -> Result<(), AllocError> {
    for value in values {
        let mut next = position;
        if let Some(place) = next.get_mut(ceiling) {
            *place = *value;
        }
        all.push(next)?;
    }
    Ok(())
}

impl Yard<'_> {
    // The different costs that usable links have by a ceiling, falling; an absent ceiling has the one cost 0.
    fn values(&self, ceiling: usize, alloc: Global) -> Result<Vec<i16>, AllocError> {
        if self.ranks.len() <= ceiling {
            return Ok(vec![in alloc; 0]?);
        }
        let mut values: Vec<i16> = (0..LINKS as u8)
            .filter_map(|e| self.usable(e)?.costs.get(ceiling).copied())
            .collect(alloc)?;
        values.sort_unstable_by(|a, b| b.cmp(a));
        values.dedup();
        Ok(values)
    }

    // All positions, in the order of the walk.
    fn positions(&self, alloc: Global) -> Result<Vec<Position>, AllocError> {
        let mut positions = vec![in alloc; [0; CEILINGS]]?;
        for ceiling in 0..CEILINGS {
            let values = self.values(ceiling, alloc)?;
            positions = extended(&positions, ceiling, &values, alloc)?;
        }
        Ok(positions)
    }

    // How many positions are solved. Found, a tree marks through its own costs; none found marks all below.
    pub fn solved(&self, trees: &[Tree], alloc: Global) -> Result<u32, AllocError> {
        let mut solved: Vec<Marked> = Vec::new(alloc);
        for position in self.positions(alloc)? {
            if solved.iter().any(|marked| marked.contains(&position)) {
                continue;
            }
            let least = self
                .best(trees, &position)
                .map_or([i16::MIN; CEILINGS], |tree| tree.y);
            solved.push(Marked {
                least,
                greatest: position,
            })?;
        }
        Ok(u32::try_from(solved.len()).unwrap_or(u32::MAX))
    }

    // How many bytes the list needs: those of its head, and of a plan record for every position.
    pub fn need(&self, alloc: Global) -> Result<usize, AllocError> {
        let positions = self.positions(alloc)?.len();
        Ok(
            positions
                .saturating_mul(self.plan_size())
                .saturating_add(HEAD),
        )
    }
}
