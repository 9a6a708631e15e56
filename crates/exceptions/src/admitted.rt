// Which links may be in a tree though they are above bounds: for each ceiling fewer than its rank.
ghost use Rattle.std.specs.Prelude.{◌≡◌, [], ◌∷◌};
ghost use Rattle.kmax.specs.Digits.{admits};
ghost use Rattle.exceptions.specs.Fit.{fit_of};

use network::capacities::PATTERNS_HELD;
use std::array;

// Links of two patterns together.
pub fn admits_pair(ks: &[u8], pattern: u8, other: u8) -> bool
    ensures { result ≡ admits ks.now (pattern ∷ other ∷ []) }
{
    let mut a = pattern;
    let mut b = other;
    for &rank in ks {
        if rank <= a % 2 + b % 2 {
            return false;
        }
        a /= 2;
        b /= 2;
    }
    true
}

// A link of a pattern alone: as beside a link that is above no bound.
fn admits_alone(ks: &[u8], pattern: u8) -> bool
    ensures { result ≡ admits ks.now (pattern ∷ []) }
{
    admits_pair(ks, pattern, 0)
}

// For each pattern, whether links of it may be exceptions.
pub fn fit_patterns(ks: &[u8]) -> [bool; PATTERNS_HELD]
    ensures { result ≡ fit_of ks.now }
{
    array::from_fn(|pattern| (pattern != 0) & admits_alone(ks, pattern as u8))
}
