// What a tree with a set of exceptions takes of the base, and the sets that cannot lead to a better tree.
ghost use Rattle.std.specs.Prelude.{◌≡◌, ◌+◌, ◌<◌, IfSome, is_some};
ghost use Rattle.trees_costs.specs.Added.{sum_of};
ghost use Rattle.search_trials.specs.Rest.{loses_to, rest_of};
ghost use Rattle.search_trials.specs.Stands.{sum_by};

use crate::basis::Basis;
use crate::best::Trial;
use trees_costs::sums::sum_of;

impl<'a> Basis<'a> {
    // The least that a tree of `goal` links takes of the base beside a set of `size` links costs, raised, if the base has as many links.
    // The base comes in rising order of cost, and costs `sum`.
    pub fn rest_of(&self, goal: usize, size: usize, sum: u32) -> Option<u32>
        requires { sum ≡ sum_of self.now.sums.now self.now.base.now }
        ensures { result ≡ rest_of self.now.sums.now self.now.base.now goal size }
    {
        let n = goal.saturating_sub(size);
        if self.base.len() < n {
            return None;
        }
        Some(sum - sum_of(self.sums, &self.base[n..]))
    }
}

// Whether no tree with a set that costs `cost` is better than the best tree so far, if any, where the rest costs so much at least, or there is none.
pub fn loses(rest: Option<u32>, cost: u32, best: Option<Trial>) -> bool
    requires { IfSome rest (λ least. cost + least < 4294967296) }
    ensures { result ≡ loses_to rest cost (is_some best) (sum_by best) }
{
    match (rest, best) {
        (None, _) => true,
        (Some(least), Some(b)) => b.sum < cost + least,
        (Some(_), None) => false,
    }
}
