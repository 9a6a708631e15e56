// Signed numbers of several bytes, two's complement, low byte first, read from slices of bytes.
ghost use Rattle.std.specs.Prelude.{◌≡◌, ◌+◌, ◌≤◌, length};
ghost use Rattle.network.specs.Bytes as spec;

use crate::numbers::{read_u16, read_u32};

// The signed number of two bytes.
#[tactic(auto, unfolding(network::specs::Bytes::signed))]
pub fn read_i16(s: &[u8], at: usize) -> i16
    requires { at + 2 ≤ length s.now }
    ensures { result ≡ spec.i16_at s.now at }
{
    read_u16(s, at).cast_signed()
}

// The signed number of four bytes.
#[tactic(auto, unfolding(network::specs::Bytes::signed))]
pub fn read_i32(s: &[u8], at: usize) -> i32
    requires { at + 4 ≤ length s.now }
    ensures { result ≡ spec.i32_at s.now at }
{
    read_u32(s, at).cast_signed()
}
