// Surveys with rest bytes, held against the trees listed over working stations and usable links.
use crate::case::Case;
use crate::tally::Tally;
use crate::{judged, lists, questions};
use alltrees::answers::{BOUNDS, Bounds, NO_BOUNDS, bounds_at};
use alltrees::listing::trees_of;
use alltrees::plans::plans_of;
use alltrees::resting::Declined;
use alltrees::small::Yard;
use network::Rule;
use std::alloc::{AllocError, Global};

// 1 where a tree buffer with one byte too few is not refused.
fn short(survey: &[u8], t: usize) -> usize {
    match t.checked_sub(1) {
        Some(size) => usize::from(!questions::is_answered(
            survey,
            size,
            NO_BOUNDS,
            Err(Rule::ShortBuffer),
        )),
        None => 0,
    }
}

// The bounds that begin with one: the next are as far after each other as the stations at rest say.
fn bounds_from(first: usize, rest: usize) -> Bounds {
    let second = first.wrapping_add(rest);
    bounds_at([first, second, second.wrapping_add(rest)])
}

// How often the planner differs in the questions under sixteen bounds, with every bound once for each ceiling.
fn asked(case: &Case<'_>) -> usize {
    let t = case.yard.tree_size();
    let rest = usize::from(case.yard.rest.bits());
    (0..BOUNDS)
        .filter(|first| !questions::is_best(case, t, bounds_from(*first, rest)))
        .count()
        .saturating_add(short(case.survey, t))
}

// How often the list call differs, with a buffer that has just what it needs, and with one byte less.
fn listed(case: &Case<'_>) -> Result<usize, AllocError> {
    let need = case.yard.need(case.alloc)?;
    let differences = lists::differences(case, need)?;
    let less = need.saturating_sub(1);
    let not_declined = lists::not_declined(case.survey, less, Rule::ShortBuffer, case.alloc)?;
    Ok(differences.saturating_add(not_declined))
}

// A survey that is accepted.
fn accepted(
    survey: &[u8],
    yard: Yard<'_>,
    tally: &mut Tally,
    alloc: Global,
) -> Result<(), AllocError> {
    let trees = trees_of(&yard, alloc)?;
    let plans = plans_of(&trees, alloc)?;
    let case = Case {
        yard,
        survey,
        trees: &trees,
        plans: &plans,
        alloc,
    };
    let judged = judged::judge_sets(&case)?;
    tally.add_resting(trees.len(), plans.len(), judged.sets);
    tally.add_differences(judged.differences);
    tally.add_differences(asked(&case));
    tally.add_differences(listed(&case)?);
    Ok(())
}

// How often a call does not decline a survey by a rule.
fn not_declined(survey: &[u8], rule: Rule, alloc: Global) -> Result<usize, AllocError> {
    let unlisted = lists::not_declined(survey, lists::ROOM, rule, alloc)?;
    let is_asked = questions::is_answered(survey, questions::ROOM, NO_BOUNDS, Err(rule));
    let is_judged = judged::is_judged(survey, &[], Err(rule));
    Ok(
        unlisted
            .saturating_add(usize::from(!is_asked))
            .saturating_add(usize::from(!is_judged)),
    )
}

// The survey of a yard with stations at rest.
pub fn compare(yard: Yard<'_>, tally: &mut Tally, alloc: Global) -> Result<(), AllocError> {
    let survey = yard.survey(alloc)?;
    let rule = match yard.declined() {
        None => return accepted(&survey, yard, tally, alloc),
        Some(Declined::Rest) => Rule::BadRest,
        Some(Declined::Ranks) => Rule::BadRanks,
    };
    tally.add_declined();
    tally.add_differences(not_declined(&survey, rule, alloc)?);
    Ok(())
}
