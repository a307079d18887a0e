//! The bound by merging slots.

ghost use Rattle.std.specs.Prelude.{◌≡◌, ◌↔◌, IsTrue};
ghost use Rattle.std.specs.List.{list_any};
ghost use Rattle.ec_loads.specs.Rooms.{is_above_slot_0 as is_above, MergeHolds};

use ec_loads::Loads;
use ec_units::Place;

/// The greatest value in bytes at which two slots can be one: up to there a legal plan below the value stays one where
/// all its units are in slot 0, and no tick costs more.
pub const MOST_MERGED: u64 = 1579;

/// Whether it is a place in a slot above 0. Takes no memory.
pub fn is_above_slot_0(place: &Option<Place>) -> bool
    ensures { result ≡ is_above place.now }
{
    match place {
        Some(place) => place.slot > 0,
        None => false,
    }
}

/// Whether one of these is a place in a slot above 0.
fn has_later_slot(places: &[Option<Place>]) -> bool
    ensures { result ≡ list_any is_above places.now }
{
    places.iter().any(|place| is_above_slot_0(place))
}

/// Whether some unit has a place in a slot above 0, at a value of at most 1579 bytes; false where there is no value.
/// Takes no memory.
pub fn merge_bound(loads: &Loads, value: Option<u64>) -> bool
    ensures { IsTrue result ↔ MergeHolds value loads.now.places }
{
    let Some(value) = value else {
        return false;
    };
    if value > MOST_MERGED {
        return false;
    }
    has_later_slot(loads.places())
}
