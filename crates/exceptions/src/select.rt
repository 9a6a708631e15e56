// The normal links, in their order.
ghost use Rattle.order.specs.Lists.{filter};
ghost use Rattle.exceptions.specs.Patterns.{normal};
ghost use Rattle.kruskal_order.specs.Collect.{Holding};
ghost use Rattle.exceptions.specs.Select.{Selectable};

use kruskal_order::passing::put_passing;

// Writes the links of an order that are above no bound, in their order, and returns their number.
pub fn put_normal(order: &[u8], patterns: &[u8], links: &mut [u8]) -> usize
    requires { Selectable patterns.now order.now links.old }
    ensures { Holding (filter (normal patterns.now) order.now) links.new result }
{
    put_passing(order, |link| patterns[link as usize] == 0, links)
}
