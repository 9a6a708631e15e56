// One set of exceptions: which links the base loses to it, and the tree.
ghost use Rattle.std.specs.Prelude.{false, ◌≡◌, ◌+◌, ◌*◌, ◌<◌, length, IfSome};
ghost use Rattle.network.specs.Capacities.{stations_held};
ghost use Rattle.network.specs.Yard.{ends_at};
ghost use Rattle.spanning.specs.Places.{first_place};
ghost use Rattle.search_trials.specs.Marks.{Flagged};
ghost use Rattle.search_trials.specs.Sets.{pair};
ghost use Rattle.search_trials.specs.Stands.{Stands, grown_from, place_of};
ghost use Rattle.search_trials.specs.Rows.{beside_at, joined_at, one_group};
ghost use Rattle.search_trials.specs.Grows.{ring};
ghost use Rattle.search_trials.specs.Trials.{Alone, Joining, One, lost_at};

use crate::basis::Basis;
use crate::best::{ExceptionSet, Trial};
use trees_costs::sums::sum_at;

// A link joins the groups p and q: whether r and s are one group then.
fn one_group(p: u8, q: u8, r: u8, s: u8) -> bool
    ensures { result ≡ one_group p q r s }
{
    (r == s) | ((p == r) & (q == s)) | ((p == s) & (q == r))
}

// The ends of a link.
fn ends_of(ends: &[u8], link: u8) -> (u8, u8)
    requires { 2 * link + 1 < length ends.now }
    ensures { (result.0 ≡ (ends_at ends.now link).a) × (result.1 ≡ (ends_at ends.now link).b) }
{
    let number = link as usize;
    (ends[2 * number], ends[2 * number + 1])
}

// Whether two links are a ring.
pub fn is_ring(ends: &[u8], link: u8, other: u8) -> bool
    requires { (2 * link + 1 < length ends.now) × (2 * other + 1 < length ends.now) }
    ensures { result ≡ ring ends.now link other }
{
    let (a, b) = ends_of(ends, link);
    let (u, v) = ends_of(ends, other);
    one_group(a, b, u, v)
}

// Links of the base that a tree is without: their number, and their raised cost.
// No option: both callers subtract the count and the cost as they are, without a branch.
#[derive(Clone, Copy)]
pub struct Lost {
    pub count: usize,
    pub cost: u32,
}

impl<'a> Basis<'a> {
    // The place of the base's link that joins the groups of stations u and v, if any does.
    fn place_joined(&self, u: u8, v: u8) -> Option<usize>
        requires { (u < stations_held) × (v < stations_held) }
        ensures place { place_of self.now.base.now result ≡ first_place (joined_at self.now.history.now u v) 0 (length self.now.base.now) }
        ensures within { IfSome result (λ place. place < length self.now.base.now) }
    {
        self.history[..self.base.len()].iter().position(|groups| groups.leader[u as usize]
            == groups.leader[v as usize])
    }

    // The place of the base's link that joins the groups of u and v beside a link from a to b, if any does.
    fn place_beside(&self, a: u8, b: u8, u: u8, v: u8) -> Option<usize>
        requires { (a < stations_held) × (b < stations_held) × (u < stations_held) × (v < stations_held) }
        ensures place { place_of self.now.base.now result ≡ first_place (beside_at self.now.history.now a b u v) 0 (length self.now.base.now) }
        ensures within { IfSome result (λ place. place < length self.now.base.now) }
    {
        self.history[..self.base.len()].iter().position(|groups| {
            let leader = &groups.leader;
            one_group(
                leader[a as usize],
                leader[b as usize],
                leader[u as usize],
                leader[v as usize],
            )
        })
    }

    // The link at a place of the base; none at no place.
    fn lost_at(&self, place: Option<usize>) -> Lost
        requires { IfSome place (λ k. k < length self.now.base.now) }
        ensures { result ≡ lost_at self.now.sums.now self.now.base.now (place_of self.now.base.now place) }
    {
        match place {
            None => Lost { count: 0, cost: 0 },
            Some(k) => Lost {
                count: 1,
                cost: sum_at(self.sums, self.base[k]),
            },
        }
    }

    // The trial t of the base alone with one exception.
    pub fn with_one(&self, t: Trial, link: u8) -> Trial
        requires { Joining self.now.ends.now self.now.sums.now link × Alone self.now.sums.now self.now.base.now t }
        ensures { One self.now.ends.now self.now.sums.now self.now.base.now link result }
    {
        let (u, v) = ends_of(self.ends, link);
        let place = self.place_joined(u, v);
        let lost = self.lost_at(place);
        let cost = sum_at(self.sums, link);
        let count = t.count + 1 - lost.count;
        let sum = t.sum + cost - lost.cost;
        Trial {
            count,
            sum,
            set: ExceptionSet::One(link),
            lost: place,
            lost2: None,
        }
    }

    // The trial t of one exception with another, where the two are no ring.
    pub fn with_two(&self, t: Trial, link: u8, other: u8) -> Trial
        requires { Joining self.now.ends.now self.now.sums.now link × Joining self.now.ends.now self.now.sums.now other
            × One self.now.ends.now self.now.sums.now self.now.base.now link t × (ring self.now.ends.now link other ≡ false) }
        ensures { Stands self.now.base.now (grown_from self.now.ends.now self.now.sums.now self.now.base.now (pair link other)) result
            × Flagged result }
    {
        let (a, b) = ends_of(self.ends, link);
        let (u, v) = ends_of(self.ends, other);
        let beside = self.place_beside(a, b, u, v);
        let lost = self.lost_at(beside);
        let cost = sum_at(self.sums, other);
        let count = t.count + 1 - lost.count;
        let sum = t.sum + cost - lost.cost;
        Trial {
            count,
            sum,
            set: ExceptionSet::Two(link, other),
            lost: t.lost,
            lost2: beside,
        }
    }
}
