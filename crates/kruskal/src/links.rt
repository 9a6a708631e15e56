// The links that Kruskal's method keeps with nothing joined before: at most one fewer than there are stations, whatever comes in.
// No heap: the first of two lent slices, as many as the count returned.
ghost use Rattle.std.specs.Prelude.{◌≤◌, length};
ghost use Rattle.kruskal.specs.Tree.{Columns, Walkable};
ghost use Rattle.kruskal.specs.Base.{Based, Joinable};

use forest::Forest;

// The number of links of a base, and the sum of their raised costs.
#[derive(Clone, Copy)]
pub struct Base {
    pub count: usize,
    pub sum: u32,
}

// Writes the links that are kept, in the order in which they come in, and the groups after each of them.
// `goal` links join all stations that are to be joined, so that no link is kept after them.
// A link that is kept changes what the next ones join. Two columns: sums are added over the base's links alone.
pub fn put_base(
    ends: &[u8],
    sums: &[u32],
    links: &[u8],
    goal: usize,
    base: &mut [u8],
    history: &mut [Forest],
) -> Base
    requires { Columns ends.now sums.now × Walkable sums.now links.now × Joinable ends.now links.now goal
        × (length links.now ≤ length base.old) × (goal ≤ length history.old) }
    ensures { Based ends.now sums.now links.now goal base.new history.new result }
{
    let mut forest = Forest::new();
    let mut count: usize = 0;
    let mut sum: u32 = 0;
    for &link in links {
        let number = link as usize;
        let new = forest.find(ends[2 * number]);
        let old = forest.find(ends[2 * number + 1]);
        if new != old {
            forest = forest.join(new, old);
            history[count] = forest;
            base[count] = link;
            sum += sums[number];
            count += 1;
            if count == goal {
                return Base { count, sum };
            }
        }
    }
    Base { count, sum }
}
