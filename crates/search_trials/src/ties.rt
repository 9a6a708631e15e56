// Which of two trees comes first: the one that has the first link at which they differ.
ghost use Rattle.std.specs.Prelude.{◌≡◌, length};
ghost use Rattle.search_trials.specs.Flags.{first};

// The tree with the flags a comes before the tree with the flags b.
pub fn first_tree(a: &[bool], b: &[bool]) -> bool
    requires { length a.now ≡ length b.now }
    ensures { result ≡ first a.now b.now }
{
    for (i, &has) in a.iter().enumerate() {
        if has != b[i] {
            return has;
        }
    }
    false
}
