// The rules of a survey's link records: their marks, and the numbers 7 and 8, link by link.
ghost use Rattle.std.specs.Prelude.{◌≡◌};
ghost use Rattle.network.specs.Survey.{cost_bits, sum_in};
ghost use Rattle.network.specs.Refusals.{absent_costs, bad_costs, link_checked, links_checked};

use crate::checks::refuse_if;
use crate::link_rules::{bad_ends, bad_sum};
use encoding::numbers::mark_at;
use network::{Refusal, Rule};
use survey_layout::fields::{CEILINGS, STATIONS};
use survey_layout::records::{LinkRecord, Records};

// Whether the cost of an absent ceiling is not 0, in a link record. It is read from the bytes: to make a slice of numbers for the rule of figures would be
// no plainer.
fn absent_costs(link: LinkRecord, p: u8) -> bool
    ensures { result ≡ absent_costs p (cost_bits link.entry.slots link.entry.bytes.now link.entry.at) }
{
    (p..link.slots).any(|j| link.cost_bits(j as usize) != 0)
}

// Whether the costs of a link record are against their rule.
fn bad_costs(link: LinkRecord, p: u8) -> bool
    ensures { result
        ≡ bad_costs p (sum_in link.entry.bytes.now link.entry.at) (cost_bits link.entry.slots link.entry.bytes.now link.entry.at) }
{
    bad_sum(link.sum()) | absent_costs(link, p)
}

// A link record with this mark, in a survey with n stations and p ceilings.
fn check_link(link: LinkRecord, mark: [u8; 2], n: u8, p: u8, place: u8) -> Result<(), Refusal>
    ensures { result ≡ link_checked link.entry.bytes.now link.entry.at mark link.entry.slots n p place }
{
    let (a, b) = link.ends();
    refuse_if(!mark_at(link.bytes, link.at, mark), Rule::WrongMark, place)?;
    refuse_if(bad_ends(n, a, b), Rule::BadEnds, place)?;
    refuse_if(bad_costs(link, p), Rule::BadCosts, place)
}

// The m link records, in their order. By number, which a refusal names.
pub fn check_links(records: Records) -> Result<(), Refusal>
    ensures { result ≡ links_checked records.entry.bytes.now records.entry.layout records.entry.m }
{
    let mark = records.layout.link.mark;
    let n = records.bytes[STATIONS];
    let p = records.bytes[CEILINGS];
    for i in 0..records.m {
        check_link(records.link(i), mark, n, p, (i + 1) as u8)?;
    }
    Ok(())
}
