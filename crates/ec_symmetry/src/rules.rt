//! By which rules the children of a prefix are made.

ghost use Rattle.std.specs.Prelude.{◌≡◌, ◌<◌, length, get_or};
ghost use Rattle.ec_loads.specs.Line.{line_of};
ghost use Rattle.ec_loads.specs.Search.{children};
ghost use Rattle.ec_symmetry.specs.Latest.{IsLastChild};
ghost use Rattle.ec_symmetry.specs.Orders.{IsOrder, prefix_of};
ghost use Rattle.ec_symmetry.specs.Ruled.{line_rules};

use crate::child::{Children, children_after, children_of};
use crate::strong::{strong_after, strong_after_last};
use ec_loads::Loads;
use ec_units::Place;

/// By which rules the children of a prefix are made: slots by their first use and each phase; the same, but of the first
/// unit phase 0 alone; or the strong rules.
#[derive(Clone, Copy, Debug, PartialEq, Eq)]
pub enum Rules {
    Plain,
    Turned,
    Strong,
}

/// The places that a unit can take after the places so far by these rules, in child order. Takes no memory.
pub fn children_by(loads: &Loads, unit: usize, rules: Rules) -> Children
    requires { unit < length loads.now.places }
    ensures { result ≡ children (line_of (line_rules rules) loads.now) loads.now.places unit }
{
    children_after_last(loads, None, unit, rules)
}

/// What `children_by` gives, where the unit that got its place last, if it is named, got one of the places that it can take by
/// these rules. By the strong rules that spares looking for the greatest place of an equal unit. Takes no memory.
pub fn children_after_last(
    loads: &Loads,
    last: Option<usize>,
    unit: usize,
    rules: Rules,
) -> Children
    requires unit { unit < length loads.now.places }
    requires last { IsLastChild (line_of (line_rules rules) loads.now) loads.now.places last }
    ensures { result ≡ children (line_of (line_rules rules) loads.now) loads.now.places unit }
{
    match rules {
        Rules::Plain => children_of(loads, unit, false),
        Rules::Turned => children_of(loads, unit, true),
        Rules::Strong => strong_after_last(loads, last, unit),
    }
}

/// The places that the next unit of an order can take after these places of the units before it, by these rules, in child
/// order. What the loads hold doesn't count. Takes no memory.
pub fn next_children(loads: &Loads, order: &[u8], before: &[Place], rules: Rules) -> Children
    requires order { IsOrder (length loads.now.loads) order.now }
    requires few { length before.now < length order.now }
    ensures { result ≡ children (line_of (line_rules rules) loads.now) (prefix_of loads.now.loads order.now before.now) (get_or order.now (length before.now) 0) }
{
    match rules {
        Rules::Plain => children_after(loads, order, before, false),
        Rules::Turned => children_after(loads, order, before, true),
        Rules::Strong => strong_after(loads, order, before),
    }
}
