// Bytes and numbers of several bytes, low byte first, written to a slice. A function for each type, as in numbers.rt.
ghost use Rattle.std.specs.Prelude.{◌≡◌, [], ◌∷◌, ◌+◌, ◌≤◌, length};
ghost use Rattle.std.specs.Int.{w16, w32};
ghost use Rattle.network.specs.Bytes.{bits_of, little_endian};
ghost use Rattle.buffers.specs.Overwrite.{overwrite};

use buffers::copies::copy_in;

// Writes one byte; the promise speaks of `overwrite`, as for the others.
pub fn write_u8(out: &mut [u8], at: usize, n: u8)
    requires { at + 1 ≤ length out.old }
    ensures { out.new ≡ overwrite out.old at (n ∷ []) }
{
    copy_in(out, at, &[n]);
}

// Writes a number of two bytes.
pub fn write_u16(out: &mut [u8], at: usize, n: u16)
    requires { at + 2 ≤ length out.old }
    ensures { out.new ≡ overwrite out.old at (little_endian 2 n) }
{
    copy_in(out, at, &n.to_le_bytes());
}

// Writes a number of four bytes.
pub fn write_u32(out: &mut [u8], at: usize, n: u32)
    requires { at + 4 ≤ length out.old }
    ensures { out.new ≡ overwrite out.old at (little_endian 4 n) }
{
    let bytes = n.to_le_bytes();
    copy_in(out, at, &bytes);
}

// Writes a signed number of two bytes.
#[tactic(auto, unfolding(network::specs::Bytes::bits_of))]
pub fn write_i16(out: &mut [u8], at: usize, z: i16)
    requires { at + 2 ≤ length out.old }
    ensures { out.new ≡ overwrite out.old at (little_endian 2 (bits_of w16 z)) }
{
    write_u16(out, at, z.cast_unsigned());
}

// Writes a signed number of four bytes.
#[tactic(auto, unfolding(network::specs::Bytes::bits_of))]
pub fn write_i32(out: &mut [u8], at: usize, z: i32)
    requires { at + 4 ≤ length out.old }
    ensures { out.new ≡ overwrite out.old at (little_endian 4 (bits_of w32 z)) }
{
    write_u32(out, at, z.cast_unsigned());
}
