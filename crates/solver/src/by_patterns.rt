// The best tree of links in order of cost, under ceilings that are patterns and ranks.
ghost use Rattle.std.specs.Prelude.{false, ◌≡◌, ◌≤◌, length, replicate, IfSome};
ghost use Rattle.network.specs.Capacities.{exceptions_held, links_held};
ghost use Rattle.kmax.specs.Ceilings.{slack_of};
ghost use Rattle.kruskal.specs.Base.{Joinable};
ghost use Rattle.kruskal.specs.Tree.{Columns};
ghost use Rattle.exceptions.specs.Patterns.{Patterned};
ghost use Rattle.exceptions.specs.Keep.{kept_exceptions};
ghost use Rattle.exceptions.specs.Select.{InOrder};
ghost use Rattle.search_trials.specs.Marks.{Flagged};
ghost use Rattle.search_trials.specs.Sets.{sets};
ghost use Rattle.search_trials.specs.Search.{best_of};
ghost use Rattle.search_trials.specs.Stands.{best_by};
ghost use Rattle.search.specs.Loops.{searched};
ghost use Rattle.solver.specs.Assembled.{Reports};

use exceptions::keep::put_exceptions;
use exceptions::select::put_normal;
use forest::Forest;
use kruskal::links::put_base;
use network::capacities::{LINKS_HELD, STATIONS_HELD, TREE_HELD};
use ranks::slack_of;
use search::under_way::Search;
use search_trials::alone::{base_alone, trial_of};
use search_trials::basis::Basis;
use search_trials::best::Trial;

// The best tree over all exception sets, with the best so far. Sets are tried of those exceptions that Kruskal's method keeps.
fn best_from(s: &Search, order: &[u8], best: Option<Trial>) -> Option<Trial>
    requires { Patterned (length s.now.basis.sums.now) s.now.ks.now s.now.patterns.now × InOrder s.now.basis.sums.now order.now
        × Joinable s.now.basis.ends.now order.now s.now.goal × (s.now.largest ≡ slack_of s.now.ks.now) × (s.now.largest ≤ exceptions_held)
        × IfSome best Flagged }
    ensures { (best_by s.now.basis.base.now result
        ≡ searched s.now.basis.ends.now s.now.basis.sums.now s.now.goal s.now.ks.now s.now.patterns.now s.now.basis.base.now
        (best_by s.now.basis.base.now best)
        (sets (kept_exceptions s.now.basis.ends.now s.now.patterns.now s.now.ks.now order.now)))
        × IfSome result Flagged }
{
    if s.largest == 0 {
        return best;
    }
    let mut odd = [0u8; LINKS_HELD];
    let n = put_exceptions(s.basis.ends, order, s.patterns, s.ks, &mut odd);
    if s.largest == 1 {
        return s.consider_ones(&odd[..n], best);
    }
    s.consider_sets(&odd[..n], best)
}

// The raised sum of the best tree of links in the given order, under ceilings with the ranks ks, if there is one, and its flags over flags that are not set.
pub fn best_of<'a>(
    ends: &'a [u8],
    sums: &'a [u32],
    goal: u8,
    patterns: &'a [u8],
    ks: &'a [u8],
    order: &[u8],
    taken: &mut [bool],
) -> Option<u32>
    requires { Columns ends.now sums.now × InOrder sums.now order.now × Patterned (length sums.now) ks.now patterns.now
        × Joinable ends.now order.now goal × (slack_of ks.now ≤ exceptions_held) × (taken.old ≡ replicate links_held false) }
    ensures { Reports (best_of ends.now sums.now goal ks.now patterns.now order.now) result
        taken.new }
{
    let mut normal = [0u8; LINKS_HELD];
    let mut base = [0u8; LINKS_HELD];
    let mut history = [Forest {
        leader: [0; STATIONS_HELD],
    }; TREE_HELD];
    let t = goal as usize;
    let n = put_normal(order, patterns, &mut normal);
    let kept = put_base(ends, sums, &normal[..n], t, &mut base, &mut history);
    let basis = Basis {
        ends,
        sums,
        base: &base[..kept.count],
        history: &history,
    };
    let largest = slack_of(ks);
    let s = Search {
        basis,
        patterns,
        ks,
        goal: t,
        alone: trial_of(kept),
        largest,
        rest: basis.rest_of(t, largest, kept.sum),
    };
    let best = best_from(&s, order, base_alone(kept, t))?;
    basis.put_flags(best, taken);
    Some(best.sum)
}
