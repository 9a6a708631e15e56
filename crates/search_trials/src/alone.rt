// The base alone, as a trial and as the best tree so far.
ghost use Rattle.std.specs.Prelude.{◌≡◌};
ghost use Rattle.search_trials.specs.BaseAlone.{lead_alone, trial_alone};

use crate::best::{ExceptionSet, Trial};
use kruskal::links::Base;

// The base as a trial.
pub fn trial_of(base: Base) -> Trial
    ensures { result ≡ trial_alone base }
{
    Trial {
        count: base.count,
        sum: base.sum,
        set: ExceptionSet::Empty,
        lost: None,
        lost2: None,
    }
}

// The base as the best tree so far, where it has `goal` links.
pub fn base_alone(base: Base, goal: usize) -> Option<Trial>
    ensures { result ≡ lead_alone base goal }
{
    if base.count == goal {
        Some(trial_of(base))
    } else {
        None
    }
}
