//! Whether a list of numbers is an order of the units.

ghost use Rattle.std.specs.Prelude.{◌≡◌, ◌==◌, ◌↔◌, IsTrue};
ghost use Rattle.std.specs.List.{list_any};
ghost use Rattle.ec_symmetry.specs.Orders.{IsOrder, has_repeat as has_repeat_of};

use ec_cert::are_below;

fn names(order: &[u8], unit: u8) -> bool
    ensures { result ≡ list_any (λ other. unit == other) order.now }
{
    order.iter().any(|other| unit == *other)
}

/// Whether a unit is named twice.
fn has_repeat(order: &[u8]) -> bool
    ensures { result ≡ has_repeat_of order.now }
{
    for i in 0..order.len() {
        if names(&order[i + 1..], order[i]) {
            return true;
        }
    }
    false
}

/// Whether each of so many units is named once.
pub(crate) fn is_order(order: &[u8], units: usize) -> bool
    ensures { IsTrue result ↔ IsOrder units order.now }
{
    order.len() == units && are_below(order, units) && !has_repeat(order)
}
