// The best tree over the sets of exceptions: those of one, and of two.
ghost use Rattle.std.specs.Prelude.{◌≡◌, ◌+◌, ◌*◌, ◌<◌, ◌∷◌, length, IfSome};
ghost use Rattle.exceptions.specs.Patterns.{Patterned, pattern_at};
ghost use Rattle.exceptions.specs.Keep.{Exceptions};
ghost use Rattle.search_trials.specs.Chosen.{competed};
ghost use Rattle.search_trials.specs.Marks.{Flagged};
ghost use Rattle.search_trials.specs.Sets.{sets};
ghost use Rattle.search_trials.specs.Stands.{best_by};
ghost use Rattle.search_trials.specs.Trials.{One};
ghost use Rattle.search.specs.Begun.{Tryable, fitting};
ghost use Rattle.search.specs.Loops.{searched, tried_ones, with_pairs};

use crate::under_way::Search;
use exceptions::admitted::admits_pair;
use search_trials::best::{Trial, contends};
use search_trials::rest::loses;
use search_trials::trials::is_ring;
use trees_costs::sums::sum_at;

impl<'a> Search<'a> {
    // Gives the trial t its turn to be the best tree. Inlined: it stands in the innermost loop.
    #[inline(always)]
    fn compete(&self, best: &mut Option<Trial>, t: Trial)
        requires { IfSome best.old Flagged × Flagged t }
        ensures { best.new ≡ competed self.now.basis.base.now self.now.goal best.old t }
    {
        if contends(self.goal, *best, t) {
            *best = self.basis.offer(*best, t);
        }
    }

    // Whether two exceptions may be in one tree: the ranks admit both, and they are no ring.
    fn fit_together(&self, link: u8, other: u8) -> bool
        requires { Patterned (length self.now.basis.sums.now) self.now.ks.now self.now.patterns.now
            × (link < length self.now.basis.sums.now) × (other < length self.now.basis.sums.now) }
        ensures { result
            ≡ fitting self.now.basis.ends.now self.now.ks.now link (pattern_at self.now.patterns.now link) other (pattern_at self.now.patterns.now other) }
    {
        admits_pair(
            self.ks,
            self.patterns[link as usize],
            self.patterns[other as usize],
        ) && !is_ring(self.basis.ends, link, other)
    }

    // The sets of a link and each later one; `one` is the trial of the link alone. The later ones come in rising order of cost, so that the sets behind
    // one that loses lose too.
    fn consider_pairs(
        &self,
        link: u8,
        later: &[u8],
        one: Trial,
        mut best: Option<Trial>,
    ) -> Option<Trial>
        requires { Patterned (length self.now.basis.sums.now) self.now.ks.now self.now.patterns.now
            × Tryable self.now.basis.ends.now self.now.basis.sums.now (link ∷ later.now) × (self.now.largest ≡ 2)
            × One self.now.basis.ends.now self.now.basis.sums.now self.now.basis.base.now link one × IfSome best Flagged }
        ensures { (best_by self.now.basis.base.now result
            ≡ with_pairs self.now.basis.ends.now self.now.basis.sums.now self.now.goal self.now.ks.now self.now.patterns.now self.now.basis.base.now
            (best_by self.now.basis.base.now best) (link ∷ later.now) 1)
            × IfSome result Flagged }
    {
        let sums = self.basis.sums;
        let cost = sum_at(sums, link);
        for &other in later {
            if loses(self.rest, cost + sum_at(sums, other), best) {
                return best;
            }
            if self.fit_together(link, other) {
                let two = self.basis.with_two(one, link, other);
                self.compete(&mut best, two);
            }
        }
        best
    }

    // The sets of one and of two of the odd links, the exceptions.
    pub fn consider_sets(&self, odd: &[u8], mut best: Option<Trial>) -> Option<Trial>
        requires { Patterned (length self.now.basis.sums.now) self.now.ks.now self.now.patterns.now
            × Tryable self.now.basis.ends.now self.now.basis.sums.now odd.now × Exceptions self.now.ks.now self.now.patterns.now odd.now
            × (self.now.largest ≡ 2) × IfSome best Flagged }
        ensures { (best_by self.now.basis.base.now result
            ≡ searched self.now.basis.ends.now self.now.basis.sums.now self.now.goal self.now.ks.now self.now.patterns.now self.now.basis.base.now
            (best_by self.now.basis.base.now best) (sets odd.now))
            × IfSome result Flagged }
    {
        for (i, &link) in odd.iter().enumerate() {
            let one = self.basis.with_one(self.alone, link);
            self.compete(&mut best, one);
            best = self.consider_pairs(link, &odd[i + 1..], one, best);
        }
        best
    }

    // The sets of one odd link: where no two are admitted, no others are tried. They come in rising order of cost, so that those behind one that loses
    // lose too.
    pub fn consider_ones(&self, odd: &[u8], mut best: Option<Trial>) -> Option<Trial>
        requires { Tryable self.now.basis.ends.now self.now.basis.sums.now odd.now × (self.now.largest ≡ 1) × IfSome best Flagged }
        ensures { (best_by self.now.basis.base.now result
            ≡ tried_ones self.now.basis.ends.now self.now.basis.sums.now self.now.goal self.now.basis.base.now (best_by self.now.basis.base.now best) odd.now 0)
            × IfSome result Flagged }
    {
        // By places: the edit that passes the first one over changes the start alone.
        for i in 0..odd.len() {
            let link = odd[i];
            if loses(self.rest, sum_at(self.basis.sums, link), best) {
                return best;
            }
            let trial = self.basis.with_one(self.alone, link);
            self.compete(&mut best, trial);
        }
        best
    }
}
