// A network with the grid of its positions: the places and values of a position.
ghost use Rattle.std.specs.Prelude.{◌≡◌, length};
ghost use Rattle.network.specs.Walk as spec;
ghost use Rattle.marking.specs.Gridded.{Gridded, network};
ghost use Rattle.walk_visit.specs.Found.{Within, bounds_at};
ghost use Rattle.walk_visit.specs.Position.{Locatable, places_at};

use marking::grid::{Grid, put_places};
use network::Net;

// A network, the different values of each ceiling at the front of its part of `values`, which holds m for each, and their grid.
#[derive(Clone, Copy)]
pub struct GriddedNet<'a> {
    pub net: Net<'a>,
    pub values: &'a [i16],
    pub grid: Grid,
    pub ghost gridded: { Gridded (spec.values (network net)) net.shape.m values.now grid },
}

// The values at some places, each in the ceiling's part of `values`, which holds m for each.
fn put_bounds(values: &[i16], m: usize, places: &[usize], bounds: &mut [i16])
    requires { Within m values.now places.now × (length bounds.old ≡ length places.now) }
    ensures { bounds.new ≡ bounds_at m values.now places.now }
{
    for (i, place) in places.iter().enumerate() {
        bounds[i] = values[i * m + *place];
    }
}

impl GriddedNet<'_> {
    // The places of position n, and the values there.
    pub fn put_position(self, n: usize, places: &mut [usize], bounds: &mut [i16])
        requires { Locatable self.net.shape self.values.now self.grid n × (length places.old ≡ self.net.shape.p)
            × (length bounds.old ≡ self.net.shape.p) }
        ensures { (places.new ≡ places_at self.entry.net.shape self.entry.grid n)
            × (bounds.new ≡ bounds_at self.entry.net.shape.m self.entry.values.now (places_at self.entry.net.shape self.entry.grid n)) }
    {
        let sides = self.grid.sides;
        put_places(n, &sides[..self.net.shape.p as usize], places);
        put_bounds(self.values, self.net.shape.m, places, bounds);
    }
}
