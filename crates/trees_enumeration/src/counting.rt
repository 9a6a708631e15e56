// The number of trees.
ghost use Rattle.std.specs.Prelude.{◌≡◌, ◌≤◌, length};
ghost use Rattle.network.specs.Limits.{max_enumerated};
ghost use Rattle.trees_enumeration.specs.Growing.{Growable, trees_in};

use crate::growing::Trees;
use network::Shape;

// Counts the trees of a yard of at most 12 links.
pub fn count_trees(shape: Shape, ends: &[u8]) -> u16
    requires { Growable shape ends.now × (shape.m ≤ max_enumerated) }
    ensures { result ≡ length (trees_in shape ends.now) }
{
    let mut trees = Trees::of(shape, ends);
    trees.first();
    let mut count: u16 = 0;
    while trees.found {
        count += 1;
        trees.advance();
    }
    count
}
