// What the rules of several records use: a number outside its range, and the refusal by a rule.
ghost use Rattle.std.specs.Prelude.{◌≡◌};
ghost use Rattle.network.specs.Checked.{refuse_if};
ghost use Rattle.network.specs.Refusals.{outside};

use network::{Refusal, Rule};

// Whether x is not from low to high.
pub fn is_outside(x: u8, low: u8, high: u8) -> bool
    ensures { result ≡ outside x low high }
{
    !(low..=high).contains(&x)
}

// The refusal by a rule where `bad` holds.
pub fn refuse_if(bad: bool, rule: Rule, place: u8) -> Result<(), Refusal>
    ensures { result ≡ refuse_if bad rule place }
{
    if bad {
        Err(Refusal { rule, place })
    } else {
        Ok(())
    }
}
