// The judge, asked about sets of links, held against the trees among them.
use crate::case::Case;
use crate::questions::are_of;
use crate::reply::agrees;
use alltrees::listing::{LinkSet, Tree};
use network::Rule;
use planner::judge;
use std::alloc::AllocError;

// How many sets were judged, and how often the judge differed.
#[derive(Clone, Copy, Default)]
pub struct Judged {
    pub sets: usize,
    pub differences: usize,
}

// Whether the judge, with these links drawn, gives the costs of the tree that is wanted, or the refusal.
pub fn is_judged(survey: &[u8], drawn: &[u8], wanted: Result<&Tree, Rule>) -> bool {
    agrees(judge(survey, drawn), wanted, are_of)
}

// The sets that have as many links as a tree of the yard, or as one of all stations, judged.
pub fn judge_sets(case: &Case<'_>) -> Result<Judged, AllocError> {
    let all = usize::from(case.yard.stations).saturating_sub(1);
    let sizes = [case.yard.tree_size(), all];
    let mut judged = Judged::default();
    for bits in 0..128u8 {
        let set = LinkSet::of_bits(bits);
        if !sizes.contains(&set.len()) {
            continue;
        }
        let drawn = set.links(case.alloc)?;
        let mut trees = case.trees.iter();
        let tree = trees.find(|tree| tree.links.as_slice() == drawn.as_slice());
        let is_same = is_judged(case.survey, &drawn, tree.ok_or(Rule::NoTree));
        judged.sets = judged.sets.saturating_add(1);
        judged.differences = judged.differences.saturating_add(usize::from(!is_same));
    }
    Ok(judged)
}
