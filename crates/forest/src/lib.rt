// The groups of stations already joined, as a value: joining two groups hands back the next value.
#![tactic(auto)]

ghost use Rattle.std.specs.Prelude.{map, ◌≡◌, ◌*◌, ◌≤◌, ◌<◌, length};
ghost use Rattle.network.specs.Capacities.{stations_held};
ghost use Rattle.spanning.specs.LabelList.{label_of, replaced};
ghost use Rattle.forest.specs.Groups.{apart, joined};
ghost use Rattle.forest.specs.History.{groups_in};

use network::capacities::STATIONS_HELD;

// A leader for each station: two stations with one leader are in one group.
#[derive(Clone, Copy, PartialEq, Eq)]
pub struct Forest {
    pub leader: [u8; STATIONS_HELD],
}

// What a leader becomes once the group of `old` is led by `new`.
fn successor(leader: u8, old: u8, new: u8) -> u8
    ensures { result ≡ replaced new old leader }
{
    if leader == old { new } else { leader }
}

// The array of leaders, handed back with the group of `old` led by `new`. By places: this is Kruskal's inner loop, and the array's iterator made it
// slower.
fn relabel(mut leaders: [u8; STATIONS_HELD], old: u8, new: u8) -> [u8; STATIONS_HELD]
    ensures { result ≡ map (replaced new old) leaders }
{
    for i in 0..STATIONS_HELD {
        leaders[i] = successor(leaders[i], old, new);
    }
    leaders
}

impl Forest {
    // No links: each station leads itself.
    pub fn new() -> Forest
        ensures { result ≡ apart }
    {
        // Written out: a constant is copied faster than counted up.
        Forest {
            leader: [
                0, 1, 2, 3, 4, 5, 6, 7, 8, 9, 10, 11, 12, 13, 14, 15, 16, 17, 18, 19, 20, 21, 22,
                23,
            ],
        }
    }

    // The leader of a station's group.
    pub fn find(self, v: u8) -> u8
        requires { v < stations_held }
        ensures { result ≡ label_of self.leader v }
    {
        let at = v as usize;
        self.leader[at]
    }

    // Joins the groups that two stations lead, and hands back the next value: the group of b goes over to a. A number that is no station leads itself.
    pub fn join(self, a: u8, b: u8) -> Forest
        requires { (label_of self.leader a ≡ a) × (label_of self.leader b ≡ b) }
        ensures { result ≡ joined self a b }
    {
        let leaders = self.leader;
        let leader = relabel(leaders, b, a);
        Forest { leader }
    }
}

// The groups after the first `count` links whose rows of leaders stand one behind the other.
pub fn groups_after(history: &[u8], count: usize) -> Forest
    requires { count * stations_held ≤ length history.now }
    ensures { result ≡ groups_in history.now count }
{
    if count == 0 {
        return Forest::new();
    }
    let end = count * STATIONS_HELD;
    let mut leader = [0u8; STATIONS_HELD];
    leader.copy_from_slice(&history[end - STATIONS_HELD..end]);
    Forest { leader }
}
