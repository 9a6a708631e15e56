// The rules of figures: the numbers 3 to 6 of the yard's, then 7 and 8 of the links', link by link. The crate survey_rules has the same ones for a
// survey's bytes, which also have rules of their marks, the link count and the stations at rest.
ghost use Rattle.std.specs.Prelude.{◌≡◌, length};
ghost use Rattle.network.specs.Writing.{link_figures_checked, yard_figures_checked};
ghost use Rattle.survey_roundtrip.specs.Columns.{columns_checked};
ghost use Rattle.survey_roundtrip.specs.Fields.{Met};
ghost use Rattle.survey_writing.specs.Figures.{figures_of, link_of};

use crate::survey::{LinkFigures, SurveyFigures};
use network::limits::{MAX_LINKS, MAX_STATIONS};
use network::records::NARROW_SLOTS;
use network::{Refusal, Rule, YardFigures};
use survey_rules::checks::{is_outside, refuse_if};
use survey_rules::link_rules::{absent_costs, bad_ends, bad_sum};
use survey_rules::rank_rules::bad_ranks;

// The rules of a yard with m links.
pub fn check_yard(yard: YardFigures, m: usize) -> Result<(), Refusal>
    ensures { result ≡ yard_figures_checked yard m }
{
    refuse_if(
        is_outside(yard.n, 1, MAX_STATIONS as u8),
        Rule::BadStations,
        0,
    )?;
    refuse_if(MAX_LINKS < m, Rule::TooManyLinks, 0)?;
    refuse_if((NARROW_SLOTS as u8) < yard.p, Rule::BadCeilings, 0)?;
    refuse_if(
        bad_ranks(yard.n, yard.p, &[yard.k1, yard.k2]),
        Rule::BadRanks,
        0,
    )
}

// The rules of a link.
fn check_link(yard: YardFigures, link: LinkFigures, place: u8) -> Result<(), Refusal>
    ensures { result ≡ link_figures_checked yard (link_of link) place }
{
    let bits = [link.c1.cast_unsigned(), link.c2.cast_unsigned()];
    let wrong_ends = bad_ends(yard.n, link.first, link.second);
    let wrong_costs = bad_sum(link.sum) | absent_costs(yard.p, &bits);
    refuse_if(wrong_ends, Rule::BadEnds, place)?;
    refuse_if(wrong_costs, Rule::BadCosts, place)
}

// The rules of all links, in their order. By number, which a refusal names.
pub fn check_links(f: SurveyFigures) -> Result<(), Refusal>
    ensures verdict { result ≡ columns_checked f.entry.yard f.entry.ends.now f.entry.sums.now f.entry.costs.now (length f.entry.sums.now) }
    ensures met { Met (figures_of f.entry) }
{
    for i in 0..f.sums.len() {
        check_link(f.yard, f.link(i), (i + 1) as u8)?;
    }
    Ok(())
}
