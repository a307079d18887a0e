//! What the end of a search is told with, made before it begins, so that its end takes no memory.

ghost use Rattle.std.specs.Prelude.{◌≡◌, ◌≤◌, IfOk, length, vec_len, vec_capacity};
ghost use Rattle.ec_workers.specs.IsRoomFor.{IsRoomFor};

use crate::certify::lines_of;
use ec_cert::UnitLines;
use ec_loads::{Places, Plan};
use ec_units::{Place, Units};
use std::alloc::{AllocError, Global};

/// The lines of the units in a certificate, and room for the places of a plan.
#[derive(Drop)]
pub(crate) struct Room {
    pub lines: UnitLines,
    pub places: Vec<Place>,
}

impl Room {
    /// The lines of these units, and room for a place of each.
    pub fn new(alloc: Global, units: &Units) -> Result<Room, AllocError>
        ensures { IfOk result (λ r. IsRoomFor units.now.units r.lines r.places) }
    {
        Ok(Room {
            lines: lines_of(alloc, units)?,
            places: Vec::with_capacity(alloc, units.units.as_slice().len())?,
        })
    }
}

/// The same plan again, in the room for it.
pub(crate) fn copied(room: Vec<Place>, plan: &Plan) -> Plan
    requires none { vec_len room ≡ 0 }
    requires wide { length plan.now.places ≤ vec_capacity room }
    ensures { result.places ≡ plan.now.places }
{
    let mut places = room;
    for place in plan.places.as_slice() {
        places.push_reserved(*place);
    }
    Plan {
        places: Places::new(places),
    }
}
