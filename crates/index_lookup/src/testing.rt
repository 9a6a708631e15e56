// Whether a buffer holds the index of a list, by the keys of its plans.
ghost use Rattle.std.specs.Prelude.{◌≡◌, ◌*◌, ◌≤◌, ◌<◌, ltb, length};
ghost use Rattle.order.specs.Lists.{all};
ghost use Rattle.network.specs.Indexing.{entries_from};
ghost use Rattle.index_lookup.specs.Entries.{AllBelow, rises_by};
ghost use Rattle.index_lookup.specs.Known.{holds_places, key_before};

use encoding::numbers::read_u16;

// Whether each of the first n entries is below n.
fn all_below(index: &[u8], n: usize) -> bool
    requires { n * 2 ≤ length index.now }
    ensures { result ≡ all (λ x. ltb x n) (entries_from n 0 index.now) }
{
    (0..n).all(|r| (read_u16(index, r * 2) as usize) < n)
}

// Whether plan a stands before plan b in the index.
fn stands_before(keys: &[u64], a: u16, b: u16) -> bool
    requires { (a < length keys.now) × (b < length keys.now) }
    ensures { result ≡ key_before keys.now a b }
{
    (keys[a as usize], a) < (keys[b as usize], b)
}

// Whether the first n entries rise strictly in the order of the index.
fn rises(keys: &[u64], index: &[u8], n: usize) -> bool
    requires { (n * 2 ≤ length index.now) × AllBelow (length keys.now) (entries_from n 0 index.now) }
    ensures { result ≡ rises_by (key_before keys.now) (entries_from n 0 index.now) }
{
    (1..n).all(|r| stands_before(keys, read_u16(index, (r - 1) * 2), read_u16(index, r * 2)))
}

// Whether the buffer's first entries are the plan numbers by rising key: entries that are below their count and rise strictly are.
pub fn holds_index(keys: &[u64], index: &[u8]) -> bool
    requires { length keys.now * 2 ≤ length index.now }
    ensures { result ≡ holds_places keys.now index.now }
{
    all_below(index, keys.len()) && rises(keys, index, keys.len())
}
