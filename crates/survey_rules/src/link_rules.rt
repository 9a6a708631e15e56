// The rules of a link's figures: those of its ends, number 7, and of its costs, number 8.
ghost use Rattle.std.specs.Prelude.{◌≡◌};
ghost use Rattle.network.specs.Refusals.{absent_costs, bad_ends, bad_sum};

use network::limits::{MAX_SUM, MIN_SUM};

// Whether one of a link's ends a and b is none of n stations, or both are the same.
pub fn bad_ends(n: u8, a: u8, b: u8) -> bool
    ensures { result ≡ bad_ends n a b }
{
    (n <= a) | (n <= b) | (a == b)
}

// Whether the cost of an absent ceiling is not 0, by the bits of all ceiling costs, with p ceilings.
pub fn absent_costs(p: u8, bits: &[u16]) -> bool
    ensures { result ≡ absent_costs p bits.now }
{
    bits.iter().skip(p as usize).any(|b| *b != 0)
}

// Whether a sum cost is outside its range.
pub fn bad_sum(s: i32) -> bool
    ensures { result ≡ bad_sum s }
{
    !(MIN_SUM..=MAX_SUM).contains(&s)
}
