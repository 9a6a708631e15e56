// Whether a reply is as it is wanted.
use network::{Refusal, Rule};

// Whether a reply is a value that passes a test, where one is wanted, or the refusal by the rule that is wanted, of no link.
pub fn agrees<T: Drop, U: Drop, F: Fn(T, U) -> bool + Drop>(
    reply: Result<T, Refusal>,
    wanted: Result<U, Rule>,
    is_wanted: F,
) -> bool
    requires { F.IsAlwaysCallable is_wanted }
{
    match (reply, wanted) {
        (Ok(value), Ok(other)) => is_wanted(value, other),
        (Err(refusal), Err(rule)) => refusal == Refusal::of(rule),
        _ => false,
    }
}
