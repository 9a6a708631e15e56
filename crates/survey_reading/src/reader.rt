// Reads a survey from bytes: its first refusal of the numbers 1 to 8, 15, 18 and 19, or the network that it says.
ghost use Rattle.network.specs.Layouts.{Roomy};
ghost use Rattle.network.specs.Refusals.{checked_of, checked_with};
ghost use Rattle.network.specs.Survey.{link_count, network_of, network_with};
ghost use Rattle.survey_reading.specs.Survey.{Lent, NetRead, SurveyRead};

use crate::positions::too_many_positions;
use crate::rules::check_records;
use network::{Layout, Net, Refusal, Rule, Shape};
use survey_decoding::decode::decode;
use survey_layout::layout::layout_of;
use survey_rules::checks::refuse_if;

// Reads a survey in a layout.
fn read_with(
    s: &[u8],
    l: Layout,
    ends: &mut [u8],
    sums: &mut [u32],
    costs: &mut [i16],
) -> Result<Shape, Refusal>
    requires { Roomy l × Lent ends.old sums.old costs.old }
    ensures { SurveyRead (checked_with l s.now) (network_with l s.now (link_count l s.now)) result
        ends.new sums.new costs.new }
{
    let records = check_records(s, l)?;
    let shape = decode(records, ends, sums, costs);
    let m = shape.m;
    let ends = &ends[..2 * m];
    let costs = &costs[..shape.p as usize * m];
    let too_many = too_many_positions(shape, ends, costs);
    refuse_if(too_many, Rule::TooManyPositions, 0)?;
    Ok(shape)
}

// Reads a survey: its first refusal, or the shape of its yard, with its columns at the fronts of those that are lent.
pub fn read_survey(
    s: &[u8],
    ends: &mut [u8],
    sums: &mut [u32],
    costs: &mut [i16],
) -> Result<Shape, Refusal>
    requires { Lent ends.old sums.old costs.old }
    ensures { SurveyRead (checked_of s.now) (network_of s.now) result ends.new sums.new costs.new }
{
    read_with(s, layout_of(s), ends, sums, costs)
}

// The same, with the network at the fronts in place of its shape. Beside it, since what the result borrows from is out of the contract's sight.
pub fn read_net<'a>(
    s: &[u8],
    ends: &'a mut [u8],
    sums: &'a mut [u32],
    costs: &'a mut [i16],
) -> Result<Net<'a>, Refusal>
    requires { Lent ends.old sums.old costs.old }
    ensures { NetRead (checked_of s.now) (network_of s.now) result }
{
    let shape = read_survey(s, ends, sums, costs)?;
    Ok(Net {
        shape,
        ends: &ends[..2 * shape.m],
        sums: &sums[..shape.m],
        costs: &costs[..shape.p as usize * shape.m],
    })
}
