// Links that pass a test, written into an array.
// No heap: the first of a lent slice, as many as the number returned.
ghost use Rattle.std.specs.Prelude.{ℕ, Bool, ◌≡◌, ◌≤◌, length};
ghost use Rattle.order.specs.Lists.{◌∈◌, filter};
ghost use Rattle.kruskal_order.specs.Collect.{Holding};

// Writes those of some links that pass a test, in their order, and returns their number. Each link is written, and counts where it passes, so that
// the loop has no branch.
pub fn put_passing<F: Fn(u8) -> bool>(links: &[u8], passes: F, out: &mut [u8]) -> usize
    requires { ((e : ℕ) → e ∈ links.now → F.pre passes e) × (length links.now ≤ length out.old) }
    ensures { (p : ℕ → Bool) → ((e : ℕ) (r : Bool) → e ∈ links.now → F.post passes e r → r ≡ p e) → Holding (filter p links.now) out.new result }
{
    let mut n: usize = 0;
    for &link in links {
        out[n] = link;
        n += passes(link) as usize;
    }
    n
}
