// What the ranks of the ceilings have above 1, added up: the most links of a tree that may be above some bound.
#![tactic(auto)]

ghost use Rattle.std.specs.Prelude.{◌≡◌, ◌≤◌, length};
ghost use Rattle.kmax.specs.Ceilings.{slack_of};
ghost use Rattle.network.specs.Capacities.{ceilings_held};

// What all ranks have above 1; an absent ceiling's rank is 0.
pub fn slack_of(ks: &[u8]) -> usize
    requires { length ks.now ≤ ceilings_held }
    ensures { result ≡ slack_of ks.now }
{
    ks.iter().map(|k| usize::from(k.saturating_sub(1))).sum()
}
