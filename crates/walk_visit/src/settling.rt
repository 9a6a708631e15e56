// What an answer settles, marked, by the values and the grid of a position alone.
ghost use Rattle.std.specs.Prelude.{◌≡◌, length, take};
ghost use Rattle.walk_visit.specs.Answered.{Partable, Reaches, settled_by, sides_by};

use crate::sides::{put_last_sides, put_own_sides};
use marking::grid::Grid;
use marking::mark::{Side, mark_box};
use network::capacities::CEILINGS_HELD;
use network::{Costs, Refusal, Shape};

// The sides of the box that the answer at some places settles.
fn sides_by(
    shape: Shape,
    values: &[i16],
    grid: Grid,
    places: &[usize],
    answer: Result<Costs, Refusal>,
) -> [Side; CEILINGS_HELD]
    requires { Partable shape values.now grid places.now }
    ensures { take shape.p result ≡ sides_by shape values.now grid places.now answer }
{
    let p = shape.p as usize;
    let mut sides = grid.sides;
    match answer {
        Ok(costs) => {
            let y = costs.y;
            put_own_sides(values, shape.m, places, &y[..p], &mut sides[..p]);
        }
        Err(_) => put_last_sides(places, &mut sides[..p]),
    }
    sides
}

// Marks the positions that the answer at position n settles.
pub fn settle(
    marks: &mut [bool],
    n: usize,
    shape: Shape,
    values: &[i16],
    grid: Grid,
    places: &[usize],
    answer: Result<Costs, Refusal>,
)
    requires { Reaches shape values.now grid places.now n answer (length marks.old) }
    ensures { marks.new ≡ settled_by shape values.now grid places.now n answer marks.old }
{
    let sides = sides_by(shape, values, grid, places, answer);
    mark_box(marks, n, &sides[..shape.p as usize]);
}
