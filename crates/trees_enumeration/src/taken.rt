// The links that the search through the trees has taken.
ghost use Rattle.std.specs.Prelude.{◌≡◌, ◌≤◌, ◌<◌};
ghost use Rattle.network.specs.Capacities.{tree_held};

use forest::Forest;
use network::capacities::{STATIONS_HELD, TREE_HELD};

// The first `count` of the links are taken, with the groups after each of them. No heap: arrays of the most, and how many there are.
#[derive(Clone, Copy)]
pub struct Taken {
    pub links: [u8; TREE_HELD],
    pub history: [Forest; TREE_HELD],
    pub count: usize,
    pub ghost held: { count ≤ tree_held },
}

impl Taken {
    ghost use Rattle.trees_enumeration.specs.History.{groups_at};
    ghost use Rattle.trees_enumeration.specs.Taken.{WithLast, WithMore, WithoutLast, last_of};

    // No link.
    pub fn none() -> Taken
        ensures { result.count ≡ 0 }
    {
        Taken {
            links: [0; TREE_HELD],
            history: [Forest {
                leader: [0; STATIONS_HELD],
            }; TREE_HELD],
            count: 0,
        }
    }

    // The groups that they join.
    pub fn groups(&self) -> Forest
        ensures { result ≡ groups_at self.now.history self.now.count }
    {
        if self.count == 0 {
            return Forest::new();
        }
        self.history[self.count - 1]
    }

    // Takes one more, after which the groups are these.
    pub fn take(&mut self, link: u8, groups: Forest)
        requires { self.old.count < tree_held }
        ensures { WithMore self.old link groups self.new }
    {
        let at = self.count;
        self.links[at] = link;
        self.history[at] = groups;
        self.count = at + 1;
    }

    // Takes a last one, after which no groups are asked for.
    pub fn close(&mut self, link: u8)
        requires { self.old.count < tree_held }
        ensures { WithLast self.old link self.new }
    {
        self.links[self.count] = link;
        self.count += 1;
    }

    // Leaves the last one, and hands it back.
    pub fn leave(&mut self) -> Option<u8>
        ensures link { result ≡ last_of self.old }
        ensures others { WithoutLast self.old self.new }
    {
        if self.count == 0 {
            return None;
        }
        self.count -= 1;
        Some(self.links[self.count])
    }
}
