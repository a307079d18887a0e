//! Whether units are the same but for their places.

ghost use Rattle.std.specs.Prelude.{◌≡◌, ◌↔◌, IsTrue, map, Some};
ghost use Rattle.ec_units.specs.Views.{slave_view, unit_view, units_view};
ghost use Rattle.ec_unit_rewrite.specs.Placing.{bare, place_of, ArePlaced};

use ec_units::{Place, Slave, Unit, Units};

/// Whether two slaves have the same station, bytes and areas.
fn is_same_slave(one: &Slave, other: &Slave) -> bool
    ensures { IsTrue result ↔ (slave_view one.now ≡ slave_view other.now) }
{
    one.station == other.station
        && one.out_bytes == other.out_bytes
        && one.in_bytes == other.in_bytes
        && one.out_at == other.out_at
        && one.in_at == other.in_at
}

/// Whether slaves are the same, one by one.
fn are_same_slaves(these: &[Slave], others: &[Slave]) -> bool
    ensures { IsTrue result ↔ (map slave_view these.now ≡ map slave_view others.now) }
{
    if these.len() != others.len() {
        return false;
    }
    for i in 0..these.len() {
        if !is_same_slave(&these[i], &others[i]) {
            return false;
        }
    }
    true
}

/// Whether two units are the same but for their places.
fn is_same_unit(one: &Unit, other: &Unit) -> bool
    ensures { IsTrue result ↔ (bare one.now ≡ bare other.now) }
{
    one.name.as_str() == other.name.as_str()
        && one.period == other.period
        && are_same_slaves(one.slaves.as_slice(), other.slaves.as_slice())
}

/// Whether units are the same but for their places, one by one.
pub(crate) fn are_same_units(these: &[Unit], others: &[Unit]) -> bool
    ensures { IsTrue result ↔ (map bare these.now ≡ map bare others.now) }
{
    if these.len() != others.len() {
        return false;
    }
    for i in 0..these.len() {
        if !is_same_unit(&these[i], &others[i]) {
            return false;
        }
    }
    true
}

/// Whether a unit has this place.
fn is_at(unit: &Unit, place: Place) -> bool
    ensures { IsTrue result ↔ (place_of unit.now ≡ Some place) }
{
    unit.place == Some(place)
}

/// Whether units have these places, one by one.
fn are_at(units: &[Unit], places: &[Place]) -> bool
    ensures { IsTrue result ↔ (map place_of units.now ≡ map (λ p. Some p) places.now) }
{
    if units.len() != places.len() {
        return false;
    }
    for i in 0..units.len() {
        if !is_at(&units[i], places[i]) {
            return false;
        }
    }
    true
}

/// Whether the second units are the first ones with these places.
pub(crate) fn are_placed(old: &Units, new: &Units, places: &[Place]) -> bool
    ensures { IsTrue result ↔ ArePlaced old.now new.now places.now }
{
    let units = new.units.as_slice();
    old.tick_ns == new.tick_ns
        && old.slots == new.slots
        && are_same_units(old.units.as_slice(), units)
        && are_at(units, places)
}
