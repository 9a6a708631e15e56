// The list of plans.
#![tactic(auto)]

ghost use Rattle.std.specs.Prelude.{◌≡◌, length};
ghost use Rattle.network.specs.Calls.{list_after, list_checked, status};
ghost use Rattle.network.specs.Cut.{CutNoticed};
ghost use Rattle.network.specs.Promise.{Promised};

use network::Refusal;
use network::capacities::{CEILINGS_HELD, LINKS_HELD};
use survey_reading::reader::read_net;
use walk::list::list_plans;

// The list of plans that no other plan beats, into the list buffer, solving at most `allowance` positions, or the refusal.
pub fn list(survey: &[u8], allowance: u32, buffer: &mut [u8]) -> Result<(), Refusal>
    ensures reply { result ≡ list_checked survey.now allowance (length buffer.old) }
    ensures leaves { buffer.new ≡ list_after survey.now allowance buffer.old }
    ensures promised { Promised survey.now allowance buffer.old (status result) buffer.new }
    ensures noticed { CutNoticed survey.now (status result).number (status result).place }
{
    let mut ends = [0u8; 2 * LINKS_HELD];
    let mut sums = [0u32; LINKS_HELD];
    let mut costs = [0i16; CEILINGS_HELD * LINKS_HELD];
    let net = read_net(survey, &mut ends, &mut sums, &mut costs)?;
    list_plans(net, allowance, buffer)
}
