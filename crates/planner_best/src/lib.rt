// The ceilings question.
#![tactic(auto)]

ghost use Rattle.std.specs.Prelude.{◌≡◌, length};
ghost use Rattle.network.specs.AnswerPromise.{BestPromised};
ghost use Rattle.network.specs.Calls.{asked, says, tree_after};
ghost use Rattle.network.specs.Cut.{CutNoticed};

use kruskal_order::usable::order_usable;
use network::capacities::{CEILINGS_HELD, LINKS_HELD};
use network::{Costs, Refusal, Rule};
use solver::question::solve;
use survey_reading::reader::read_net;

// The best tree under the numbers given for the ceilings, of which those for absent ones are ignored: its costs, with its links in the first t bytes of
// the tree buffer, or the refusal.
pub fn best(survey: &[u8], given: [i16; CEILINGS_HELD], tree: &mut [u8]) -> Result<Costs, Refusal>
    ensures reply { says result ≡ asked survey.now given (length tree.old) }
    ensures leaves { tree.new ≡ tree_after survey.now given tree.old }
    ensures promised { BestPromised survey.now given tree.old (says result).number (says result).values tree.new }
    ensures noticed { CutNoticed survey.now (says result).number (says result).place }
{
    let mut ends = [0u8; 2 * LINKS_HELD];
    let mut sums = [0u32; LINKS_HELD];
    let mut costs = [0i16; CEILINGS_HELD * LINKS_HELD];
    // By match: `?` copies the network once more, which short questions feel.
    match read_net(survey, &mut ends, &mut sums, &mut costs) {
        Err(refusal) => Err(refusal),
        Ok(net) => {
            if tree.len() < net.shape.t as usize {
                return Err(Refusal::of(Rule::ShortBuffer));
            }
            let usable = order_usable(net.shape.rest, net.ends, net.sums);
            solve(net, usable.links(), &given[..net.shape.p as usize], tree)
        }
    }
}
