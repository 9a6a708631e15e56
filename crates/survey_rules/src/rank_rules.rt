// The rule of ranks, number 6: that of each rank, and what all have above 1.
ghost use Rattle.std.specs.Prelude.{◌≡◌, ◌≤◌, length};
ghost use Rattle.network.specs.Refusals.{any_bad_rank, bad_rank, bad_ranks};
ghost use Rattle.network.specs.Limits.{max_ceilings};

use crate::checks::is_outside;
use network::limits::{MAX_RANK, MAX_SLACK};
use ranks::slack_of;

// Whether k is against the rule of ceiling j, of p present ones, with n working stations.
fn bad_rank(n: u8, p: u8, j: usize, k: u8) -> bool
    ensures { result ≡ bad_rank n p j k }
{
    let present = p as usize;
    ((j < present) & (is_outside(k, 1, MAX_RANK) | (n <= k))) | ((present <= j) & (k != 0))
}

// Whether one of the ranks ks is against the rule of its ceiling.
fn any_bad_rank(n: u8, p: u8, ks: &[u8]) -> bool
    ensures { result ≡ any_bad_rank n p 0 ks.now }
{
    ks.iter().enumerate().any(|(j, k)| bad_rank(n, p, j, *k))
}

// Whether a rank is against its rule, or the ranks have more above 1 than is allowed.
pub fn bad_ranks(n: u8, p: u8, ks: &[u8]) -> bool
    requires { length ks.now ≤ max_ceilings }
    ensures { result ≡ bad_ranks n p ks.now }
{
    any_bad_rank(n, p, ks) | (MAX_SLACK < slack_of(ks))
}
