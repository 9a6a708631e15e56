// Whether a list of links is a tree: t usable links of the survey, rising, each of which joins two groups of stations.
ghost use Rattle.std.specs.Prelude.{◌≡◌};
ghost use Rattle.spanning.specs.Listing.{is_listed};
ghost use Rattle.network.specs.Yard.{ends_at, usable_at, working};
ghost use Rattle.stations.specs.Stations.{Stations};
ghost use Rattle.trees_drawn.specs.Drawn.{Drawable, draws_forest};

use crate::drawing::{Drawn, draw};
use forest::Forest;
use network::Shape;

// Whether the links rise below m, and each is usable and joins two groups.
fn draws_forest(rest: u32, ends: &[u8], m: usize, links: &[u8]) -> bool
    requires { Stations ends.now }
    ensures { result ≡ draws_forest rest ends.now m links.now }
{
    let mut drawn = Drawn {
        groups: Forest::new(),
        low: 0,
    };
    for &link in links {
        let Some(more) = draw(drawn, rest, ends, m, link) else {
            return false;
        };
        drawn = more;
    }
    true
}

// Whether the links are a tree, written rising. The shape and the ends apart: it asks less than a network does.
pub fn is_tree(shape: Shape, ends: &[u8], links: &[u8]) -> bool
    requires { Drawable shape ends.now }
    ensures { result ≡ is_listed (ends_at ends.now) (working shape.n shape.rest) shape.m
        (usable_at shape.rest ends.now) links.now }
{
    links.len() == shape.t as usize && draws_forest(shape.rest, ends, shape.m, links)
}
