// The sides of the boxes that answers settle, from the sides of the box of all positions.
ghost use Rattle.std.specs.Prelude.{◌≡◌, length};
ghost use Rattle.walk_visit.specs.Found.{Parted, Placed, last_sides, own_sides};

use marking::mark::Side;
use marking::place::place_of;

// The sides of the box from some places to the last ones.
pub fn put_last_sides(places: &[usize], sides: &mut [Side])
    requires { Placed sides.old places.now }
    ensures { sides.new ≡ last_sides sides.old places.now }
{
    for (i, place) in places.iter().enumerate() {
        sides[i].count -= *place;
    }
}

// The sides of the box from some places through those of a tree's costs y.
pub fn put_own_sides(values: &[i16], m: usize, places: &[usize], y: &[i16], sides: &mut [Side])
    requires { Parted m values.now sides.old × Placed sides.old places.now × (length y.now ≡ length sides.old) }
    ensures { sides.new ≡ own_sides m values.now sides.old places.now y.now }
{
    for (i, place) in places.iter().enumerate() {
        let from = i * m;
        let rest = &values[from + *place..from + sides[i].count];
        sides[i].count = place_of(rest, y[i]) + 1;
    }
}
