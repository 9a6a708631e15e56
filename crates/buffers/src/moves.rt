// Bytes moved within a slice. By loops: the library's copy would need `memmove` of the host, and the archive needs `memcpy` and `memset` alone.
ghost use Rattle.std.specs.Prelude.{◌≡◌, ◌+◌, ◌≤◌, ◌<◌, length, take, drop, get_or, set};
ghost use Rattle.buffers.specs.Overwrite.{overwrite};

// Writes one byte at another index.
fn move_one(out: &mut [u8], from: usize, to: usize)
    requires { (from < length out.old) × (to < length out.old) }
    ensures { out.new ≡ set out.old to (get_or out.old from 0) }
{
    out[to] = out[from];
}

// Writes the n bytes from index `from` at an index `to` that is no higher, the lowest one first.
fn move_down(out: &mut [u8], from: usize, to: usize, n: usize)
    requires { (to ≤ from) × (from + n ≤ length out.old) }
    ensures { out.new ≡ overwrite out.old to (take n (drop from out.old)) }
{
    for j in 0..n {
        move_one(out, from + j, to + j);
    }
}

// Writes the n bytes from index `from` at an index `to` that is no lower, the highest one first.
fn move_up(out: &mut [u8], from: usize, to: usize, n: usize)
    requires { (from ≤ to) × (to + n ≤ length out.old) }
    ensures { out.new ≡ overwrite out.old to (take n (drop from out.old)) }
{
    for j in (0..n).rev() {
        move_one(out, from + j, to + j);
    }
}

// Writes the n bytes from index `from` at an index `to`; the two parts may overlap, and bytes that stand there already are left alone.
pub fn move_within(out: &mut [u8], from: usize, to: usize, n: usize)
    requires { (from + n ≤ length out.old) × (to + n ≤ length out.old) }
    ensures { out.new ≡ overwrite out.old to (take n (drop from out.old)) }
{
    if to < from {
        move_down(out, from, to, n);
    } else if from < to {
        move_up(out, from, to, n);
    }
}
