// The cheapest plan whose y1 is at most a bound, by the keys of plans.
ghost use Rattle.std.specs.Prelude.{◌≡◌, ◌<◌, length};
ghost use Rattle.std.specs.Option.{ForSome};
ghost use Rattle.index_lookup.specs.Search.{cheapest_by, next_best, plan_in};

use index_keys::{sum_in, y1_in};

// The better of the best plan so far and the later plan r, if that meets the bound; the best one so far if they cost the same.
fn next_best(keys: &[u64], bound: u64, best: Option<usize>, r: usize) -> Option<usize>
    requires { ForSome best (λ b. b < length keys.now) × (r < length keys.now) }
    ensures { (plan_in result ≡ next_best keys.now bound (plan_in best) r) × ForSome result (λ b. b < length keys.now) }
{
    if y1_in(keys[r]) as u64 <= bound {
        if let Some(before) = best {
            if sum_in(keys[before]) <= sum_in(keys[r]) {
                return best;
            }
        }
        return Some(r);
    }
    best
}

// The cheapest plan that meets the bound, the earliest among equal sums.
// A loop: that filter and min_by_key find the earliest of equal sums was not proved.
pub fn cheapest_plan(keys: &[u64], bound: u64) -> Option<usize>
    ensures { (plan_in result ≡ cheapest_by keys.now bound) × ForSome result (λ r. r < length keys.now) }
{
    let mut best = None;
    for r in 0..keys.len() {
        best = next_best(keys, bound, best, r);
    }
    best
}
