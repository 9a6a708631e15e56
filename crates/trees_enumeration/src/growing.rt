// The trees of a yard one after another: links are gone through in order, and each that is usable and joins two groups is first taken and later left.
ghost use Rattle.std.specs.Prelude.{◌≡◌, true, IfSome};
ghost use Rattle.trees_enumeration.specs.Growing.{Growable, Reached, Standing, TreeTaken, Whole, coming, trees_in};

use crate::taken::Taken;
use network::Shape;
use stations::is_usable;

// The trees of a yard, one after another: whether one was found, and its links, from which the search goes on to the next.
#[derive(Clone, Copy)]
pub struct Trees<'a> {
    pub shape: Shape,
    pub ends: &'a [u8],
    pub taken: Taken,
    pub found: bool,
    pub ghost growable: { Growable shape ends.now },
    pub ghost whole: { found ≡ true → TreeTaken shape ends.now taken.count taken.links taken.history },
}

// Goes on from a branch to its first tree, and says whether there is one. The branch has taken some links and looks at `next` next. Where too few links
// are left, the last one taken is left instead. After the last link of a tree no groups are joined: no link is looked at behind it.
fn grow(shape: Shape, ends: &[u8], taken: &mut Taken, next: usize) -> bool
    requires { Growable shape ends.now × Standing shape.m shape.t ends.now taken.old.count next taken.old.links taken.old.history }
    ensures { Reached shape ends.now (coming shape.rest shape.m shape.t ends.now taken.old.count next taken.old.links) result
        taken.new.count taken.new.links taken.new.history }
{
    let t = shape.t as usize;
    let mut link = next;
    let mut groups = taken.groups();
    while taken.count < t {
        if shape.m - link < t - taken.count {
            let Some(last) = taken.leave() else {
                return false;
            };
            link = last as usize + 1;
            groups = taken.groups();
        } else {
            let new = groups.find(ends[2 * link]);
            let old = groups.find(ends[2 * link + 1]);
            let joins = is_usable(shape.rest, ends, link) & (new != old);
            if joins {
                if taken.count + 1 == t {
                    taken.close(link as u8);
                    return true;
                }
                groups = groups.join(new, old);
                taken.take(link as u8, groups);
                link += 1;
            } else {
                link += 1;
            }
        }
    }
    true
}

impl<'a> Trees<'a> {
    ghost use Rattle.trees_enumeration.specs.Enumerated.{ahead_in, later_in, links_in};

    // Those of a yard, before the first.
    pub fn of(shape: Shape, ends: &'a [u8]) -> Trees<'a>
        requires { Growable shape ends.now }
        ensures { (result.shape ≡ shape) × (result.ends.now ≡ ends.now) }
    {
        Trees {
            shape,
            ends,
            taken: Taken::none(),
            found: false,
        }
    }

    // To the first tree.
    pub fn first(&mut self)
        ensures trees { trees_in self.old.shape self.old.ends.now ≡ ahead_in self.new }
        ensures yard { (self.new.shape ≡ self.old.shape) × (self.new.ends.now ≡ self.old.ends.now) }
    {
        self.taken.count = 0;
        self.found = grow(self.shape, self.ends, &mut self.taken, 0);
    }

    // On to the next tree.
    pub fn advance(&mut self)
        requires { self.old.found ≡ true }
        ensures trees { later_in self.old ≡ ahead_in self.new }
        ensures yard { (self.new.shape ≡ self.old.shape) × (self.new.ends.now ≡ self.old.ends.now) }
    {
        let last = self.taken.leave();
        self.found = match last {
            Some(link) => grow(self.shape, self.ends, &mut self.taken, link as usize + 1),
            None => false,
        };
    }

    // Its links.
    pub fn links(&self) -> &[u8]
        ensures { result.now ≡ links_in self.now }
    {
        let t = self.shape.t as usize;
        &self.taken.links[..t]
    }
}

// A tree that was found: its links, with the groups after each of them, from which the search goes on to the next.
#[derive(Clone, Copy)]
pub struct Tree<'a> {
    pub shape: Shape,
    pub ends: &'a [u8],
    pub taken: Taken,
    pub ghost growable: { Growable shape ends.now },
    pub ghost whole: { Whole shape ends.now taken.count taken.links taken.history },
}

impl<'a> Tree<'a> {
    ghost use Rattle.trees_enumeration.specs.Enumerated.{ahead, ahead_in, later_than, links_of};

    // The first tree of a yard.
    pub fn first(shape: Shape, ends: &'a [u8]) -> Option<Tree<'a>>
        requires { Growable shape ends.now }
        ensures trees { trees_in shape ends.now ≡ ahead result }
        ensures yard { IfSome result (λ tree. (tree.shape ≡ shape) × (tree.ends.now ≡ ends.now)) }
    {
        let mut trees = Trees::of(shape, ends);
        trees.first();
        Tree::of(trees)
    }

    // The next tree.
    pub fn following(self) -> Option<Tree<'a>>
        ensures trees { later_than self.entry ≡ ahead result }
        ensures yard { IfSome result (λ tree. (tree.shape ≡ self.entry.shape) × (tree.ends.now ≡ self.entry.ends.now)) }
    {
        let mut trees = Trees {
            shape: self.shape,
            ends: self.ends,
            taken: self.taken,
            found: true,
        };
        trees.advance();
        Tree::of(trees)
    }

    // Its links.
    pub fn links(&self) -> &[u8]
        ensures { result.now ≡ links_of self.now }
    {
        &self.taken.links[..self.shape.t as usize]
    }

    // The tree that a search has come to, if any: its last link is taken once more, with the groups after it.
    fn of(trees: Trees<'a>) -> Option<Tree<'a>>
        ensures trees { ahead_in trees.entry ≡ ahead result }
        ensures yard { IfSome result (λ tree. (tree.shape ≡ trees.entry.shape) × (tree.ends.now ≡ trees.entry.ends.now)) }
    {
        if !trees.found {
            return None;
        }
        let ends = trees.ends;
        let mut taken = trees.taken;
        if let Some(last) = taken.leave() {
            let link = last as usize;
            let groups = taken.groups();
            let new = groups.find(ends[2 * link]);
            let old = groups.find(ends[2 * link + 1]);
            taken.take(last, groups.join(new, old));
        }
        Some(Tree {
            shape: trees.shape,
            ends,
            taken,
        })
    }
}

#[cfg(test)]
mod tests {
    use super::*;
    use network::capacities::CEILINGS_HELD;

    // Three links between three stations: each two are a tree.
    #[test]
    fn three_trees_of_a_ring(rt: HostRuntime) {
        let ends = [0u8, 1, 1, 2, 0, 2];
        let shape = Shape {
            n: 3,
            p: 0,
            k: [0; CEILINGS_HELD],
            rest: 0,
            m: 3,
            t: 2,
        };
        let mut found = Tree::first(shape, &ends);
        for links in [[0u8, 1], [0, 2], [1, 2]] {
            let tree = found.expect(&rt, "a tree that was not found");
            assert_eq!(rt; tree.links(), links.as_slice());
            let groups = tree.taken.groups();
            assert_eq!(rt; groups.find(1), groups.find(0));
            assert_eq!(rt; groups.find(2), groups.find(0));
            found = tree.following();
        }
        assert!(rt; found.is_none());
    }
}
