// The judge of a drawn tree.
#![tactic(auto)]

ghost use Rattle.std.specs.Prelude.{◌≡◌};
ghost use Rattle.network.specs.AnswerPromise.{JudgePromised};
ghost use Rattle.network.specs.Calls.{judged, says};
ghost use Rattle.network.specs.Cut.{CutNoticed};

use network::capacities::{CEILINGS_HELD, LINKS_HELD};
use network::{Costs, Refusal, Rule};
use survey_reading::reader::read_net;
use trees_costs::costs::tree_costs;
use trees_drawn::drawn::is_tree;

// The judge of a drawn tree: its costs, or the refusal. `drawn` holds its link numbers, one byte each.
pub fn judge(survey: &[u8], drawn: &[u8]) -> Result<Costs, Refusal>
    ensures reply { says result ≡ judged survey.now drawn.now }
    ensures promised { JudgePromised survey.now drawn.now (says result).number (says result).values }
    ensures noticed { CutNoticed survey.now (says result).number (says result).place }
{
    let mut ends = [0u8; 2 * LINKS_HELD];
    let mut sums = [0u32; LINKS_HELD];
    let mut costs = [0i16; CEILINGS_HELD * LINKS_HELD];
    let net = read_net(survey, &mut ends, &mut sums, &mut costs)?;
    if is_tree(net.shape, net.ends, drawn) {
        Ok(tree_costs(net.shape, net.sums, net.costs, drawn))
    } else {
        Err(Refusal::of(Rule::NoTree))
    }
}
