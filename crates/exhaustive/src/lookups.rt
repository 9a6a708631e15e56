// The index of the planner's list, and lookups in it, held against the plans and the best trees listed.
use crate::case::Case;
use crate::lists::ROOM;
use crate::reply::agrees;
use alltrees::answers::{BOUNDS, DIRT, bounds_at};
use alltrees::indexes::{first_with_sum, index_of};
use network::Rule;
use planner::{index, index_lookup, list};
use std::alloc::AllocError;

// More bytes than any index here needs.
const INDEX_ROOM: usize = 144;

// Whether the lookup by the bound at a place gives the first plan with the sum of the best tree, or the refusal where there is none.
fn is_found(case: &Case<'_>, list: &[u8], index: &[u8], place: usize) -> bool {
    let bounds = bounds_at([place, BOUNDS - 1, BOUNDS - 1]);
    let wanted = case.yard.best(case.trees, &bounds).ok_or(Rule::NoSuchPlan);
    let reply = index_lookup(list, index, bounds[0]);
    agrees(reply, wanted, |r, tree| {
        first_with_sum(case.plans, tree) == Some(usize::from(r))
    })
}

// How often the planner differs: in building the index of its list, and in the lookups under the 16 bounds.
pub fn differences(case: &Case<'_>) -> Result<usize, AllocError> {
    let mut given = vec![in case.alloc; DIRT; ROOM]?;
    let _listed = list(case.survey, u32::MAX, &mut given);
    let wanted = index_of(case.plans, INDEX_ROOM, case.alloc)?;
    let mut built = vec![in case.alloc; DIRT; INDEX_ROOM]?;
    let reply = index(&given, &mut built);
    let is_built = reply.is_ok() && built.as_slice() == wanted.as_slice();
    let not_found = (0..BOUNDS)
        .filter(|place| !is_found(case, &given, &built, *place))
        .count();
    Ok(not_found.saturating_add(usize::from(!is_built)))
}
