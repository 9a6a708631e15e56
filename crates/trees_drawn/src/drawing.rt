// One link more of a drawn tree.
ghost use Rattle.std.specs.Prelude.{◌≡◌};
ghost use Rattle.forest.specs.Groups.{Led};
ghost use Rattle.stations.specs.Stations.{Stations};
ghost use Rattle.trees_drawn.specs.Drawing.{drawing};

use forest::Forest;
use stations::{joins_working, station_at};

// The links so far: the groups that they join, and the least number that the next one may have.
#[derive(Clone, Copy)]
pub struct Drawn {
    pub groups: Forest,
    pub low: usize,
}

// One link more, if it is above the one before, one of the m links, usable, and joins two groups.
pub fn draw(drawn: Drawn, rest: u32, ends: &[u8], m: usize, link: u8) -> Option<Drawn>
    requires { Stations ends.now × Led drawn.groups }
    ensures { result ≡ drawing rest ends.now m drawn link }
{
    let number = link as usize;
    let a = station_at(ends, 2 * number);
    let b = station_at(ends, 2 * number + 1);
    let usable = joins_working(rest, a, b);
    let groups = drawn.groups;
    let new = groups.find(a);
    let old = groups.find(b);
    let keeps = (drawn.low <= number) & (number < m) & usable & (new != old);
    if keeps {
        Some(Drawn {
            groups: groups.join(new, old),
            low: number + 1,
        })
    } else {
        None
    }
}
