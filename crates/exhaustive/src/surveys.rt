// Surveys written from the figures of a yard with both kinds of yard record that are written, held against its surveys and the plans among the trees listed.
// With three ceilings, both kinds are refused.
use crate::case::Case;
use crate::lists;
use alltrees::answers::DIRT;
use alltrees::small::{CEILINGS, Form, Yard};
use network::{Refusal, Rule, YardFigures};
use planner::write_survey;
use std::alloc::{AllocError, Global};

// One byte more than the longest survey here.
const ROOM: usize = 92;

// The figures of the yard record.
fn yard_figures(yard: &Yard<'_>) -> YardFigures {
    let [p, ..] = yard.ranks.len().to_le_bytes();
    YardFigures {
        n: yard.stations,
        p,
        k1: yard.rank(0),
        k2: yard.rank(1),
    }
}

// Whether a survey of a yard is written: with three ceilings, the record of three is no kind that is, and another one has no room for them.
fn writable(yard: &Yard<'_>) -> Result<(), Rule> {
    if yard.ranks.len() < CEILINGS {
        Ok(())
    } else if yard.form == Form::Wide {
        Err(Rule::WrongMark)
    } else {
        Err(Rule::BadCeilings)
    }
}

// The output as it is wanted: it holds the survey, or is as it was where a rule refuses it.
fn wanted_output(yard: &Yard<'_>, alloc: Global) -> Result<Vec<u8>, AllocError> {
    let mut output = match writable(yard) {
        Ok(()) => yard.survey(alloc)?,
        Err(_) => Vec::new(alloc),
    };
    output.resize(ROOM, DIRT)?;
    Ok(output)
}

// 1 where the reply or the output differs from what is wanted of the call with the figures of a yard, and with ends and costs of links that it has not.
fn differs(yard: &Yard<'_>, alloc: Global) -> Result<usize, AllocError> {
    let [high, low] = yard.form.mark();
    let figures = yard.figures(alloc)?;
    let wanted = wanted_output(yard, alloc)?;
    let mut output = vec![in alloc; DIRT; ROOM]?;
    let reply = write_survey(
        u32::from_be_bytes([0, 0, high, low]),
        yard_figures(yard),
        &figures.ends,
        &figures.sums,
        &figures.costs,
        &mut output,
    );
    let is_wanted = reply == writable(yard).map_err(Refusal::of)
        && output.as_slice() == wanted.as_slice();
    Ok(usize::from(!is_wanted))
}

// How often the planner differs in listing a survey that was written.
fn listed(case: &Case<'_>, yard: Yard<'_>) -> Result<usize, AllocError> {
    if writable(&yard).is_err() {
        return Ok(0);
    }
    let survey = yard.survey(case.alloc)?;
    let written = Case {
        yard,
        survey: &survey,
        ..*case
    };
    lists::differences(&written, yard.need(case.alloc)?)
}

// How often the planner differs: in writing the survey with both kinds, and in listing the one with the other kind.
pub fn differences(case: &Case<'_>) -> Result<usize, AllocError> {
    let other = case.yard.in_other_form();
    Ok(
        differs(&case.yard, case.alloc)?
            .saturating_add(differs(&other, case.alloc)?)
            .saturating_add(listed(case, other)?),
    )
}
