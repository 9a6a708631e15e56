// The costs of a list of links: the sum, and for each ceiling the k-th largest cost.
ghost use Rattle.std.specs.Prelude.{◌≡◌, length};
ghost use Rattle.trees_costs.specs.Added.{sum_of};
ghost use Rattle.trees_costs.specs.TreeCosts.{Ceiled, Priceable, ceilings_by, costs_by};

use crate::ceilings::ceiling_cost;
use crate::sums::{lowered, sum_of};
use network::capacities::CEILINGS_HELD;
use network::{Costs, Shape};

// The ceiling costs of the links: of each present ceiling, and 0 for the others. By split_at, since m may be 0, which chunks_exact does not take.
fn ceiling_costs(shape: Shape, costs: &[i16], links: &[u8]) -> [i16; CEILINGS_HELD]
    requires { Ceiled shape costs.now links.now }
    ensures { result ≡ ceilings_by shape costs.now links.now }
{
    let ranks = shape.k;
    let mut y = [0i16; CEILINGS_HELD];
    let mut columns = costs;
    for (i, &k) in ranks[..shape.p as usize].iter().enumerate() {
        let (column, others) = columns.split_at(shape.m);
        y[i] = ceiling_cost(column, k, links);
        columns = others;
    }
    y
}

// The costs of t links, whose raised sum costs add up to `raised`. The shape and the columns apart: it asks less than a network does.
pub fn costs_with(shape: Shape, costs: &[i16], links: &[u8], raised: u32) -> Costs
    requires { Priceable shape costs.now links.now raised }
    ensures { result ≡ costs_by shape costs.now links.now raised }
{
    Costs {
        sum: lowered(raised, links.len()),
        y: ceiling_costs(shape, costs, links),
    }
}

// The costs of t links.
pub fn tree_costs(shape: Shape, sums: &[u32], costs: &[i16], links: &[u8]) -> Costs
    requires { (length sums.now ≡ shape.m) × Priceable shape costs.now links.now (sum_of sums.now links.now) }
    ensures { result ≡ costs_by shape costs.now links.now (sum_of sums.now links.now) }
{
    costs_with(shape, costs, links, sum_of(sums, links))
}
