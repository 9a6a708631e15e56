// All small surveys in order, each by its number.
#![tactic(auto)]

ghost use Rattle.std.specs.Prelude.{◌≡◌, length};
ghost use Rattle.network.specs.SmallPromise.{SmallPromised};
ghost use Rattle.network.specs.Calls.{status};
ghost use Rattle.network.specs.SmallSurveys.{small_after, small_checked};

use network::{Refusal, Rule};
use small_surveys::numbered::{BYTES, SURVEYS, write_numbered};

// Small survey q into the output, whose bytes past it stay, or the refusal.
pub fn small_survey(q: u32, survey: &mut [u8]) -> Result<(), Refusal>
    ensures reply { result ≡ small_checked q (length survey.old) }
    ensures leaves { survey.new ≡ small_after q survey.old }
    ensures promised { SmallPromised q survey.old (status result) survey.new }
{
    if SURVEYS <= q {
        return Err(Refusal::of(Rule::NoSuchSurvey));
    }
    if survey.len() < BYTES {
        return Err(Refusal::of(Rule::ShortOutput));
    }
    write_numbered(survey, q);
    Ok(())
}
