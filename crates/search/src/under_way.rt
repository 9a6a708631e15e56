// A search for the best tree: what it stands on, and what its sets are tried with.
ghost use Rattle.std.specs.Prelude.{◌≡◌};
ghost use Rattle.std.proofs.Props.{props};
ghost use Rattle.order.specs.Order.{orderℕ};
ghost use Rattle.order.specs.Sorted.{Sorted};
ghost use Rattle.network.specs.Yard.{sum_at};
ghost use Rattle.search_trials.specs.Marks.{Distinct};
ghost use Rattle.search_trials.specs.Once.{distinct-prop, sorted-prop};
ghost use Rattle.search_trials.specs.Rest.{rest_of};
ghost use Rattle.search_trials.specs.Trials.{Alone};

use search_trials::basis::Basis;
use search_trials::best::Trial;

// The links and the base, in rising order of cost and each link once; the pattern of each link, and the ranks; the number of links of a tree, the base
// as a trial, how many exceptions the largest sets have, and the least that a tree takes of the base beside them costs, if the base has as many links.
#[derive(Clone, Copy)]
pub struct Search<'a> {
    pub basis: Basis<'a>,
    pub patterns: &'a [u8],
    pub ks: &'a [u8],
    pub goal: usize,
    pub alone: Trial,
    pub largest: usize,
    pub rest: Option<u32>,
    pub ghost sorted: { Sorted orderℕ (sum_at basis.sums.now) basis.base.now } by { sorted-prop (sum_at basis.sums.now) basis.base.now },
    pub ghost distinct: { Distinct basis.base.now } by { distinct-prop basis.base.now },
    pub ghost base_alone: { Alone basis.sums.now basis.base.now alone },
    pub ghost beside: { rest ≡ rest_of basis.sums.now basis.base.now goal largest } by { Prim.hlevel props },
}
