// The costs in a plan record, and their two orders.
ghost use Rattle.std.specs.Prelude.{◌≡◌, ◌+◌, ◌≤◌, length};
ghost use Rattle.network.specs.PlanList.{costs_at, plan_size, plan_sum_at};
ghost use Rattle.planlist_records.specs.Orders.{at_most, in_order};

use crate::records::{CEILING_COSTS_AT, SUM_AT};
use encoding::signed::{read_i16, read_i32};
use network::Costs;
use std::array;

// No entry of v is above that of w.
pub fn at_most(v: Costs, w: Costs) -> bool
    requires { length v.y ≡ length w.y }
    ensures { result ≡ at_most v w }
{
    v.sum <= w.sum && v.y.iter().zip(&w.y).all(|(a, b)| a <= b)
}

// v stands before w in dictionary order, or is the same. By tuples: the clause of a derived order of Costs was not brought to the definition.
pub fn in_order(v: Costs, w: Costs) -> bool
    requires { length v.y ≡ length w.y }
    ensures { result ≡ in_order v w }
{
    let a = v.y;
    let b = w.y;
    (v.sum, a) <= (w.sum, b)
}

// The costs that the plan record at an index holds; a ceiling cost that it has no room for is 0.
pub fn costs_at(s: &[u8], at: usize, slots: usize) -> Costs
    requires { at + plan_size slots 0 ≤ length s.now }
    ensures { result ≡ costs_at slots s.now at }
{
    Costs {
        sum: read_i32(s, at + SUM_AT),
        y: array::from_fn(|i| {
            if i < slots {
                read_i16(s, at + CEILING_COSTS_AT + 2 * i)
            } else {
                0
            }
        }),
    }
}

// The sum that the plan record at an index holds.
pub fn sum_in(s: &[u8], at: usize) -> i32
    requires { at + plan_size 0 0 ≤ length s.now }
    ensures { result ≡ plan_sum_at s.now at }
{
    read_i32(s, at + SUM_AT)
}
