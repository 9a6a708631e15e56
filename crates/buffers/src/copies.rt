// Elements and zeros written into a slice. Elements by a loop: the library's copy would need `memmove` of the host.
ghost use Rattle.std.specs.Prelude.{◌≡◌, ◌++◌, ◌+◌, ◌-◌, ◌≤◌, length, take, replicate};
ghost use Rattle.buffers.specs.Overwrite.{overwrite};

// Writes all of src at an index.
pub fn copy_in<T: Copy>(out: &mut [T], at: usize, src: &[T])
    requires { at + length src.now ≤ length out.old }
    ensures { out.new ≡ overwrite out.old at src.now }
{
    for j in 0..src.len() {
        out[at + j] = src[j];
    }
}

// Writes zeros from an index to the end.
pub fn clear_from(out: &mut [u8], at: usize)
    requires { at ≤ length out.old }
    ensures { out.new ≡ take at out.old ++ replicate (length out.old - at) 0 }
{
    out[at..].fill(0);
}
