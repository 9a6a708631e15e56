// A ceiling cost of a list of links: the k-th largest of their costs in the ceiling's column.
ghost use Rattle.std.specs.Prelude.{◌≡◌, ◌<◌, length, map};
ghost use Rattle.network.specs.Yard.{cost_at};
ghost use Rattle.trees_costs.specs.Ceiling.{CeilingFine, FiguresFine, ceiling_of};

use crate::kth::kth_largest;
use network::capacities::TREE_HELD;

// The cost of a link in a column.
fn cost_at(column: &[i16], link: u8) -> i16
    requires { link < length column.now }
    ensures { result ≡ cost_at column.now link }
{
    column[link as usize]
}

// Writes the costs of the links in a column.
fn figures_of(column: &[i16], links: &[u8], figures: &mut [i16])
    requires { FiguresFine column.now links.now × (length figures.old ≡ length links.now) }
    ensures { figures.new ≡ map (cost_at column.now) links.now }
{
    for (i, &link) in links.iter().enumerate() {
        figures[i] = cost_at(column, link);
    }
}

// The ceiling cost of the links, by the ceiling's column and its rank.
pub fn ceiling_cost(column: &[i16], k: u8, links: &[u8]) -> i16
    requires { CeilingFine column.now k links.now }
    ensures { result ≡ ceiling_of column.now k links.now }
{
    let mut held = [0i16; TREE_HELD];
    let figures = &mut held[..links.len()];
    figures_of(column, links, figures);
    kth_largest(figures, k)
}
