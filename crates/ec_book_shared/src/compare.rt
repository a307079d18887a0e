//! Whether units and an order are those of a search.

ghost use Rattle.std.specs.Prelude.{◌≡◌, ◌↔◌, IsTrue};
ghost use Rattle.ec_units.specs.Load.{load_of, loads_of};
ghost use Rattle.ec_book_shared.specs.Seats.{AreOf};

use ec_units::{Load, Unit, Units, bytes_of};

/// Whether a unit has these bytes and this period.
fn has_load(unit: &Unit, load: Load) -> bool
    ensures { IsTrue result ↔ (load_of unit.now ≡ load) }
{
    bytes_of(unit) == load.bytes && unit.period == load.period
}

/// Whether the units have these bytes and periods.
fn have_loads(units: &[Unit], loads: &[Load]) -> bool
    ensures { IsTrue result ↔ (loads_of units.now ≡ loads.now) }
{
    if units.len() != loads.len() {
        return false;
    }
    for i in 0..units.len() {
        if !has_load(&units[i], loads[i]) {
            return false;
        }
    }
    true
}

/// Whether two orders are one.
fn is_same_order(these: &[u8], those: &[u8]) -> bool
    ensures { IsTrue result ↔ (these.now ≡ those.now) }
{
    if these.len() != those.len() {
        return false;
    }
    for i in 0..these.len() {
        if these[i] != those[i] {
            return false;
        }
    }
    true
}

/// Whether the units have these bytes and periods and this slot count, and their order is this one.
pub(crate) fn are_of(
    loads: &[Load],
    slots: u8,
    order: &[u8],
    units: &Units,
    units_order: &[u8],
) -> bool
    ensures { IsTrue result ↔ AreOf loads.now slots order.now units.now.units units.now.slots units_order.now }
{
    have_loads(units.units.as_slice(), loads)
        && units.slots == slots
        && is_same_order(units_order, order)
}
