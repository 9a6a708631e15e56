// Unsigned numbers of several bytes, low byte first, and marks, read from slices of bytes. There is a function for each type, since std's
// `from_le_bytes` and `to_le_bytes` belong to no trait: a trait over them would have as many bodies.
ghost use Rattle.std.specs.Prelude.{◌≡◌, ◌+◌, ◌≤◌, length};
ghost use Rattle.network.specs.Bytes as spec;

// The unsigned number of two bytes.
pub fn read_u16(s: &[u8], at: usize) -> u16
    requires { at + 2 ≤ length s.now }
    ensures { result ≡ spec.u16_at s.now at }
{
    u16::from_le_bytes([s[at], s[at + 1]])
}

// The unsigned number of three bytes.
pub fn read_u24(s: &[u8], at: usize) -> u32
    requires { at + 3 ≤ length s.now }
    ensures { result ≡ spec.u24_at s.now at }
{
    u32::from_le_bytes([s[at], s[at + 1], s[at + 2], 0])
}

// The unsigned number of four bytes.
pub fn read_u32(s: &[u8], at: usize) -> u32
    requires { at + 4 ≤ length s.now }
    ensures { result ≡ spec.u32_at s.now at }
{
    u32::from_le_bytes([s[at], s[at + 1], s[at + 2], s[at + 3]])
}

// Whether a mark stands at an index, exactly.
pub fn mark_at(s: &[u8], at: usize, mark: [u8; 2]) -> bool
    requires { at + 2 ≤ length s.now }
    ensures { result ≡ spec.mark_at s.now at mark }
{
    [s[at], s[at + 1]] == mark
}
