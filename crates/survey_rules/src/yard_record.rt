// The rules of a survey's yard record: its mark, the numbers 3 to 6, and 15 and 18 between 4 and 5.
ghost use Rattle.std.specs.Prelude.{◌≡◌};
ghost use Rattle.network.specs.Refusals.{yard_checked};

use crate::checks::{is_outside, refuse_if};
use crate::link_count::bad_count;
use crate::rank_rules::bad_ranks;
use crate::resting::rest_in;
use encoding::numbers::mark_at;
use network::limits::{MAX_LINKS, MAX_STATIONS};
use network::{Refusal, Rule};
use stations::{count_working, rest_above};
use survey_layout::fields::{CEILINGS, RANKS, STATIONS};
use survey_layout::records::YardRecord;

// The yard record of a survey with m links.
pub fn check_yard(yard: YardRecord, m: usize) -> Result<(), Refusal>
    ensures { result ≡ yard_checked yard.entry.bytes.now yard.entry.layout m }
{
    let s = yard.bytes;
    let l = yard.layout;
    let n = s[STATIONS];
    let p = s[CEILINGS];
    let slots = l.slots;
    refuse_if(!mark_at(s, 0, l.yard.mark), Rule::WrongMark, 0)?;
    refuse_if(is_outside(n, 1, MAX_STATIONS as u8), Rule::BadStations, 0)?;
    refuse_if(MAX_LINKS < m, Rule::TooManyLinks, 0)?;
    refuse_if(bad_count(yard, m), Rule::WrongLinkCount, 0)?;
    let rest = rest_in(yard);
    let working = count_working(n, rest);
    let bad_rest = (rest_above(n, rest) != 0) | (working == 0);
    refuse_if(bad_rest, Rule::BadRest, 0)?;
    refuse_if(is_outside(p, l.fewest, slots), Rule::BadCeilings, 0)?;
    let ranks = &s[RANKS..RANKS + slots as usize];
    refuse_if(bad_ranks(working, p, ranks), Rule::BadRanks, 0)
}
