// What trials stand on: the links of a network, and the base that Kruskal's method keeps of some of them.
ghost use Rattle.search_trials.specs.Trials.{Ready};

use forest::Forest;

// The ends of all links and their raised costs; the base, and the groups after each of its links. The history may be longer than the base.
#[derive(Clone, Copy)]
pub struct Basis<'a> {
    pub ends: &'a [u8],
    pub sums: &'a [u32],
    pub base: &'a [u8],
    pub history: &'a [Forest],
    pub ghost ready: { Ready ends.now sums.now base.now history.now },
}
