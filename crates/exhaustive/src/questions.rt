// The ceilings question, asked of the planner and of the list of trees.
use crate::case::Case;
use crate::reply::agrees;
use alltrees::answers::{BOUNDS, Bounds, DIRT, bounds_at, holds_links};
use alltrees::listing::Tree;
use network::{Costs, Rule};
use planner::best;

// More bytes than a tree here has.
pub const ROOM: usize = 8;

// How many questions a yard is asked.
const ASKED: usize = BOUNDS * BOUNDS;

// Whether costs are those of a tree.
pub fn are_of(costs: Costs, tree: &Tree) -> bool {
    costs.sum == tree.sum && costs.y == tree.y
}

// Whether the planner, with a tree buffer of so many bytes, gives the tree that is wanted, in the reply, the links and the bytes past them, or the
// refusal that is wanted.
pub fn is_answered(
    survey: &[u8],
    size: usize,
    bounds: Bounds,
    wanted: Result<&Tree, Rule>,
) -> bool {
    let mut space = [DIRT; ROOM];
    let Some(given) = space.get_mut(..size) else {
        return false;
    };
    let reply = best(survey, bounds, given);
    agrees(reply, wanted, are_of) && holds_links(given, wanted.ok())
}

// The same with the best tree of a yard under bounds.
pub fn is_best(case: &Case<'_>, size: usize, bounds: Bounds) -> bool {
    let wanted = case.yard.best(case.trees, &bounds).ok_or(Rule::NothingFits);
    is_answered(case.survey, size, bounds, wanted)
}

// How often the planner differs under 256 bounds: those of any two ceilings are each pair once.
pub fn differences(case: &Case<'_>) -> usize {
    (0..ASKED)
        .map(|i| (i / BOUNDS, i % BOUNDS))
        .map(|(first, second)| bounds_at([first, second, first.wrapping_add(second)]))
        .filter(|bounds| !is_best(case, ROOM, *bounds))
        .count()
}
