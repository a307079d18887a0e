//! Room for a unit of a frame that is too full.

ghost use Rattle.std.specs.Prelude.{◌≡◌, ◌<◌, None, Some, slice_get};

use ec_loads::{Loads, MOST_PAYLOAD};
use ec_units::{Place, Unit, Units};
use std::alloc::{AllocError, Global};

/// The first place in a slot at which a unit without a place makes no frame too full.
fn place_in(loads: &Loads, unit: usize, slot: u8) -> Option<Place>
    requires free { slice_get loads.now.places unit ≡ Some None }
    requires slot { slot < loads.now.slots }
{
    let load = loads.loads().get(unit)?;
    for phase in 0..load.period {
        let place = Place { phase, slot };
        if loads.excess(unit, place, u64::MAX).is_none() {
            return Some(place);
        }
    }
    None
}

/// The first such place in any slot, where this one is the first to be tried.
fn place_from(loads: &Loads, unit: usize, first: u8) -> Option<Place>
    requires { slice_get loads.now.places unit ≡ Some None }
{
    let slots = loads.slots();
    for step in 0..slots {
        let slot = first.saturating_add(step) % slots;
        if let Some(place) = place_in(loads, unit, slot) {
            return Some(place);
        }
    }
    None
}

/// A unit of a frame that is too full, and a place at which it has room while the others stay.
#[derive(Clone, Copy)]
pub(crate) struct Room<'a> {
    pub unit: &'a Unit,
    pub place: Place,
    /// Whether the frame is small enough without it.
    pub is_enough: bool,
}

/// The room elsewhere for the unit with this number, if it travels in a frame and has some.
fn room_for<'a>(
    alloc: Global,
    units: &'a Units,
    number: usize,
    tick: u32,
    slot: u8,
) -> Result<Option<Room<'a>>, AllocError> {
    let mut loads = Loads::placed(alloc, units)?;
    let (Some(Some(_)), Some(unit)) = (
        loads.places().get(number),
        units.units.as_slice().get(number),
    ) else {
        return Ok(None);
    };
    let before = loads.payload(tick, slot);
    loads.remove(number);
    let bytes = loads.payload(tick, slot);
    if bytes == before {
        return Ok(None);
    }
    let is_enough = bytes <= MOST_PAYLOAD;
    Ok(place_from(&loads, number, slot).map(|place| Room {
        unit,
        place,
        is_enough,
    }))
}

/// The first unit without which a frame is small enough, and which has room elsewhere; else the first one that has room. Its place is in
/// its own slot, if there is one.
pub(crate) fn room_elsewhere<'a>(
    alloc: Global,
    units: &'a Units,
    tick: u32,
    slot: u8,
) -> Result<Option<Room<'a>>, AllocError> {
    let mut found = None;
    for number in 0..units.units.as_slice().len() {
        match room_for(alloc, units, number, tick, slot)? {
            Some(room) if room.is_enough => return Ok(Some(room)),
            Some(room) if found.is_none() => found = Some(room),
            _ => {}
        }
    }
    Ok(found)
}
