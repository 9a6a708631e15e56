// A network as the code hands it on: what is small of it by value, and its columns as slices.
ghost use Rattle.network.specs.Shaped.{Plannable};

use crate::Shape;

// What is small of a network, and its columns: the ends of the links, their raised sum costs, and their costs by the ceilings.
#[derive(Clone, Copy)]
pub struct Net<'a> {
    pub shape: Shape,
    pub ends: &'a [u8],
    pub sums: &'a [u32],
    pub costs: &'a [i16],
    pub ghost plannable: { Plannable shape ends.now sums.now costs.now },
}
