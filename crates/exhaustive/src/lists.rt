// The list call, held against the plans among the trees listed and the solved count of the walk.
use crate::case::Case;
use alltrees::answers::DIRT;
use network::{Refusal, Rule};
use planner::list;
use std::alloc::{AllocError, Global};

// More bytes than any list here needs: 343 positions and 4 links take 5,498.
pub const ROOM: usize = 5520;

// 1 where a list call does not reply as wanted, or leaves other bytes than wanted in a buffer of as many.
fn differs(
    survey: &[u8],
    allowance: u32,
    wanted: Result<(), Rule>,
    bytes: &[u8],
    alloc: Global,
) -> Result<usize, AllocError> {
    let mut given = vec![in alloc; DIRT; bytes.len()]?;
    let reply = list(survey, allowance, &mut given);
    let is_wanted = reply == wanted.map_err(Refusal::of) && given.as_slice() == bytes;
    Ok(usize::from(!is_wanted))
}

// 1 where the planner does not refuse one position less than it has to solve, with the buffer cleared.
fn short(survey: &[u8], size: usize, solved: u32, alloc: Global) -> Result<usize, AllocError> {
    let Some(allowance) = solved.checked_sub(1) else {
        return Ok(0);
    };
    let cleared = vec![in alloc; 0u8; size]?;
    differs(
        survey,
        allowance,
        Err(Rule::AllowanceSpent),
        &cleared,
        alloc,
    )
}

// How often the planner differs with a buffer of so many bytes: with just enough positions allowed, and with one less.
pub fn differences(case: &Case<'_>, size: usize) -> Result<usize, AllocError> {
    let solved = case.yard.solved(case.trees, case.alloc)?;
    let wanted = case.yard.list(case.plans, solved, size, case.alloc)?;
    let enough = differs(case.survey, solved, Ok(()), &wanted, case.alloc)?;
    Ok(enough.saturating_add(short(case.survey, size, solved, case.alloc)?))
}

// 1 where the planner does not refuse a buffer of so many bytes by a rule, with the buffer as it was.
pub fn not_declined(
    survey: &[u8],
    size: usize,
    rule: Rule,
    alloc: Global,
) -> Result<usize, AllocError> {
    let kept = vec![in alloc; DIRT; size]?;
    differs(survey, u32::MAX, Err(rule), &kept, alloc)
}
