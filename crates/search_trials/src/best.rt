// The best tree so far, and a tree that is compared with it.
ghost use Rattle.std.specs.Prelude.{false, ◌≡◌, replicate, IfSome};
ghost use Rattle.network.specs.Capacities.{links_held};
ghost use Rattle.kruskal.specs.Grown.{flags_of};
ghost use Rattle.search_trials.specs.Chosen.{chosen, contending, first_by};
ghost use Rattle.search_trials.specs.Marks.{Distinct, Flagged, stays, without};
ghost use Rattle.search_trials.specs.Stands.{links_by, place_of};

use crate::basis::Basis;
use crate::ties::first_tree;
use network::capacities::LINKS_HELD;

// A set of exceptions.
#[derive(Clone, Copy)]
pub enum ExceptionSet {
    Empty,
    One(u8),
    Two(u8, u8),
}

// A forest of links: the base without its links at the places `lost` and `lost2`, if any, and with the exceptions of a set; their number, and the sum
// of their raised costs.
#[derive(Clone, Copy)]
pub struct Trial {
    pub count: usize,
    pub sum: u32,
    pub set: ExceptionSet,
    pub lost: Option<usize>,
    pub lost2: Option<usize>,
}

// Whether the link at a place stays in the base without the link at the place `lost`, if any.
fn stays(lost: Option<usize>, place: usize) -> bool
    ensures { result ≡ stays lost place }
{
    lost.is_none_or(|other| place != other)
}

// Whether t spans, that is has `goal` links, and has no higher sum than the best tree so far, if any.
pub fn contends(goal: usize, best: Option<Trial>, t: Trial) -> bool
    ensures { result ≡ contending goal best t }
{
    match best {
        None => t.count == goal,
        Some(b) => (t.count == goal) & (t.sum <= b.sum),
    }
}

impl<'a> Basis<'a> {
    // Sets the flags of the base's links that a tree has.
    fn put_kept(&self, lost: Option<usize>, lost2: Option<usize>, taken: &mut [bool])
        requires { (taken.old ≡ replicate links_held false) × Distinct self.now.base.now }
        ensures { taken.new ≡ flags_of (without (place_of self.now.base.now lost) (place_of self.now.base.now lost2) self.now.base.now) }
    {
        for (place, &link) in self.base.iter().enumerate() {
            taken[link as usize] = stays(lost, place) & stays(lost2, place);
        }
    }

    // Sets the flags of a tree's links, over flags that are not set.
    pub fn put_flags(&self, t: Trial, taken: &mut [bool])
        requires { (taken.old ≡ replicate links_held false) × Distinct self.now.base.now × Flagged t }
        ensures { taken.new ≡ flags_of (links_by self.now.base.now t) }
    {
        self.put_kept(t.lost, t.lost2, taken);
        match t.set {
            ExceptionSet::Empty => {}
            ExceptionSet::One(link) => taken[link as usize] = true,
            ExceptionSet::Two(link, other) => {
                taken[link as usize] = true;
                taken[other as usize] = true;
            }
        }
    }

    // The tree t comes before the tree u. Ties are rare, so that the search keeps this out of its loops.
    #[cold]
    fn comes_first(&self, t: Trial, u: Trial) -> bool
        requires { Distinct self.now.base.now × Flagged t × Flagged u }
        ensures { result ≡ first_by self.now.base.now t u }
    {
        let mut a = [false; LINKS_HELD];
        let mut b = [false; LINKS_HELD];
        self.put_flags(t, &mut a);
        self.put_flags(u, &mut b);
        first_tree(&a, &b)
    }

    // A tree that contends takes the place of the best one so far where it is better: it has a smaller sum, or the same sum and comes first.
    pub fn offer(&self, best: Option<Trial>, t: Trial) -> Option<Trial>
        requires { Distinct self.now.base.now × IfSome best Flagged × Flagged t }
        ensures { result ≡ chosen self.now.base.now best t }
    {
        if let Some(b) = best {
            if t.sum == b.sum {
                if !self.comes_first(t, b) {
                    return best;
                }
            }
        }
        Some(t)
    }
}
