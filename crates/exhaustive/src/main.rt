// All trees of small yards, as the crate `alltrees` lists them, held against the planner's calls. What is printed, counts alone, is held to the
// file `stdout`.
#![tactic(auto)]

mod case;
mod judged;
mod lists;
mod lookups;
mod questions;
mod reply;
mod resting;
mod surveys;
mod tally;

use alltrees::kinds::COUNT;
use alltrees::listing::trees_of;
use alltrees::plans::plans_of;
use alltrees::resting::Stations;
use alltrees::small::{Drawn, Yard, next};
use case::Case;
use std::alloc::{AllocError, Global};
use std::io;
use tally::Tally;

// Every kind of yard twenty times.
const YARDS: usize = 20 * COUNT;

// Bytes of a list buffer past what it needs.
const PAST: usize = 20;

// A yard's trees, and the comparisons.
fn compare(yard: Yard<'_>, tally: &mut Tally, alloc: Global) -> Result<(), AllocError> {
    let survey = yard.survey(alloc)?;
    let trees = trees_of(&yard, alloc)?;
    let plans = plans_of(&trees, alloc)?;
    let case = Case {
        yard,
        survey: &survey,
        trees: &trees,
        plans: &plans,
        alloc,
    };
    let size = yard.need(alloc)?.saturating_add(PAST);
    tally.add_yard(trees.len(), plans.len());
    tally.add_differences(questions::differences(&case));
    tally.add_differences(lists::differences(&case, size)?);
    tally.add_differences(lookups::differences(&case)?);
    tally.add_differences(surveys::differences(&case)?);
    Ok(())
}

// A yard with every set of the stations 0 to 4 at rest, those that it does not have among them.
fn compare_resting(yard: Yard<'_>, tally: &mut Tally, alloc: Global) -> Result<(), AllocError> {
    for bits in 0..32u8 {
        resting::compare(yard.at_rest(Stations::of_bits(bits)), tally, alloc)?;
    }
    Ok(())
}

// All yards.
fn run(alloc: Global) -> Result<Tally, AllocError> {
    let mut x = 1;
    let mut tally = Tally::default();
    for i in 0..YARDS {
        x = next(x);
        let drawn = Drawn::new(i, x, alloc)?;
        let yard = drawn.yard();
        compare(yard, &mut tally, alloc)?;
        compare_resting(yard, &mut tally, alloc)?;
    }
    Ok(tally)
}

// That a write fails is nothing that the program reports.
fn main(rt: HostRuntime) -> io::Result<()> {
    let tally = run(rt.alloc())?;
    let _written = rt.print(tally);
    Ok(())
}
