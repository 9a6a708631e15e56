// The links of the best tree, written into the caller's buffer.
ghost use Rattle.std.specs.Prelude.{◌≡◌, ◌≤◌, length};
ghost use Rattle.network.specs.Capacities.{links_held};
ghost use Rattle.search_trials.specs.Flags.{rising};
ghost use Rattle.solver.specs.Buffer.{put_at};

// The t links with a flag, rising, written at the buffer's front. Each link is written at the next free place, which moves on where its flag is set.
// Not `put_passing`: the tree buffer may end at t, so that the loop must stop there.
pub fn put_links(tree: &mut [u8], taken: &[bool], t: usize)
    requires { (length (rising 0 taken.now) ≡ t) × (t ≤ length tree.old) × (length taken.now ≤ links_held) }
    ensures { tree.new ≡ put_at 0 (rising 0 taken.now) tree.old }
{
    let mut n: usize = 0;
    for (link, &has) in taken.iter().enumerate() {
        if n == t {
            return;
        }
        tree[n] = link as u8;
        n += has as usize;
    }
}
