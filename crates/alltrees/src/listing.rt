// All trees of a yard with their costs, first trees first.
use crate::resting::Stations;
use crate::small::{CEILINGS, LINKS, Link, Yard};
use std::alloc::{AllocError, Global};

// A tree: its sum, its ceiling costs, 0 where a ceiling is absent, and its links in rising order. Trees compare by these, one after another.
#[derive(PartialEq, Eq, PartialOrd, Ord, Drop)]
pub struct Tree {
    pub sum: i32,
    pub y: [i16; CEILINGS],
    pub links: Vec<u8>,
}

// A set of links: bit 6 - e is 1 for link e, so that of two sets of one size the greater is first in dictionary order.
#[derive(Clone, Copy)]
pub struct LinkSet(u8);

impl LinkSet {
    // The set with these bits.
    pub fn of_bits(bits: u8) -> LinkSet {
        LinkSet(bits)
    }

    // How many links are in it.
    pub fn len(self) -> usize {
        self.0.count_ones() as usize
    }

    // Whether link e is in it.
    fn contains(self, e: u8) -> bool {
        self.0 & 64u8.wrapping_shr(u32::from(e)) != 0
    }

    // Its links in rising order.
    pub fn links(self, alloc: Global) -> Result<Vec<u8>, AllocError> {
        (0..LINKS as u8)
            .filter(|e| self.contains(*e))
            .collect(alloc)
    }
}

// The stations reached, with both of a link where one is reached.
fn reach(reached: Stations, link: &Link) -> Stations {
    if reached.overlaps(link.both()) {
        reached.with(link.both())
    } else {
        reached
    }
}

// Whether all working stations are reached by these links from the lowest of them, in as many turns as there are links.
fn joins_all(links: &[Link], working: Stations) -> bool {
    let mut reached = working.lowest();
    for _ in links {
        reached = links.iter().fold(reached, reach);
    }
    reached == working
}

// The k-th largest cost by a ceiling: the greatest that at least k links are at or above.
fn kth_largest(links: &[Link], ceiling: usize, k: usize) -> i16 {
    let costs = || links
        .iter()
        .filter_map(|link| link.costs.get(ceiling).copied());
    costs()
        .filter(|cost| k <= costs().filter(|other| cost <= other).count())
        .max()
        .unwrap_or(0)
}

// The cost of links by a ceiling, 0 where it is absent.
fn ceiling_cost(yard: &Yard<'_>, links: &[Link], ceiling: usize) -> i16 {
    match yard.ranks.get(ceiling) {
        Some(k) => kth_largest(links, ceiling, usize::from(*k)),
        None => 0,
    }
}

// The tree of a set, where it is one: usable links alone, as many as a tree has, that join all working stations.
fn tree_of(yard: &Yard<'_>, set: LinkSet, alloc: Global) -> Result<Option<Tree>, AllocError> {
    if set.len() != yard.tree_size() {
        return Ok(None);
    }
    let links = set.links(alloc)?;
    let usable: Vec<Link> = links.iter().filter_map(|e| yard.usable(*e)).collect(alloc)?;
    if usable.len() != links.len() || !joins_all(&usable, yard.working()) {
        return Ok(None);
    }
    Ok(Some(Tree {
        sum: usable
            .iter()
            .fold(0i32, |sum, link| sum.wrapping_add(link.sum)),
        y: [0, 1, 2].map(|ceiling| ceiling_cost(yard, &usable, ceiling)),
        links,
    }))
}

// All trees of a yard.
pub fn trees_of(yard: &Yard<'_>, alloc: Global) -> Result<Vec<Tree>, AllocError> {
    let mut trees = Vec::new(alloc);
    for bits in (0..1u8 << LINKS).rev() {
        if let Some(tree) = tree_of(yard, LinkSet(bits), alloc)? {
            trees.push(tree)?;
        }
    }
    Ok(trees)
}
