// The best tree under bounds, and whether a tree buffer is that of a tree.
use crate::listing::Tree;
use crate::small::{CEILINGS, Yard};

// What buffers hold before a call.
pub const DIRT: u8 = 0xA5;

// How many bounds there are.
pub const BOUNDS: usize = 16;

// For each cost the cost, and the next one less 1; above the last none.
const VALUES: [i16; BOUNDS] = [
    -32768, -257, -256, -2, -1, -1, 0, 0, 1, 254, 255, 255, 256, 32766, 32767, 32767,
];

// A bound for each ceiling.
pub type Bounds = [i16; CEILINGS];

// The highest bounds.
pub const NO_BOUNDS: Bounds = [i16::MAX; CEILINGS];

// The bounds at these places, counted round.
pub fn bounds_at(places: [usize; CEILINGS]) -> Bounds {
    places.map(|place| VALUES[place % BOUNDS])
}

impl Tree {
    // Whether the ceiling costs are at most bounds, as many as there are.
    pub fn is_within(&self, bounds: &[i16]) -> bool {
        self.y.iter().zip(bounds).all(|(y, bound)| y <= bound)
    }
}

impl Yard<'_> {
    // The best tree of the yard under bounds, of which those of absent ceilings do not count: the first of the least sum.
    pub fn best<'t>(&self, trees: &'t [Tree], bounds: &Bounds) -> Option<&'t Tree> {
        let present = bounds.get(..self.ranks.len())?;
        trees
            .iter()
            .filter(|tree| tree.is_within(present))
            .min_by_key(|tree| tree.sum)
    }
}

// Whether a buffer is as it was.
pub fn is_dirt(given: &[u8]) -> bool {
    given.iter().all(|byte| *byte == DIRT)
}

// Whether a buffer holds the links of a tree, if there is one, and is as it was past them.
pub fn holds_links(given: &[u8], tree: Option<&Tree>) -> bool {
    let links = tree.map_or(&[][..], |tree| tree.links.as_slice());
    given.strip_prefix(links).is_some_and(is_dirt)
}
