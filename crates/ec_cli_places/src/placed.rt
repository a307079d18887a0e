//! A unit text with other places.

ghost use Rattle.std.specs.Prelude.{string_bytes, IfOk};
ghost use Rattle.ec_unit_rewrite.specs.Placing.{IsPlacedText};

use ec_unit_rewrite::{PlacingFault, place_text};
use ec_unit_text::MOST_BYTES;
use ec_units::{Place, Units};
use std::alloc::{AllocError, Global};

/// What is told of a text into which no places can be filled.
const NO_FORM: &str =
    "Each unit of the text has to begin with a line [[unit]], and each key to have a line of its own";

/// What is told of a text that would be too long to be read.
const TOO_LONG: &str = "With them the text has more than the 1048576 bytes that are read";

/// The most bytes of a unit text that are read, and one, by which a longer one shows.
pub(crate) const MOST_TEXT: usize = MOST_BYTES + 1;

/// Why a unit text isn't written again with places.
#[derive(Clone, Copy)]
pub enum PlacedFault {
    OutOfMemory,
    /// It can't have them, for this reason.
    Unfit(&'static str),
}

/// A unit text that was found right, with these places.
pub fn placed_text(alloc: Global, units: &[u8], places: &[Place]) -> Result<String, PlacedFault>
    ensures { IfOk result (λ placed. IsPlacedText units.now places.now (string_bytes placed)) }
{
    if units.is_empty() {
        return Err(PlacedFault::OutOfMemory);
    }
    match place_text(alloc, units, places) {
        Ok(placed) if placed.len() >= MOST_TEXT => Err(PlacedFault::Unfit(TOO_LONG)),
        Ok(placed) => Ok(placed),
        Err(PlacingFault::OutOfMemory) => Err(PlacedFault::OutOfMemory),
        Err(_) => Err(PlacedFault::Unfit(NO_FORM)),
    }
}

/// The first place for each unit: no other has shorter numbers.
fn first_places(alloc: Global, units: &Units) -> Result<Vec<Place>, AllocError> {
    let mut places = Vec::new(alloc);
    for _ in units.units.as_slice() {
        places.push(Place { phase: 0, slot: 0 })?;
    }
    Ok(places)
}

/// Why a unit text that was found right can't have places; none where it can, or memory is wanting.
pub fn unfit_text(alloc: Global, text: &[u8], units: &Units) -> Option<&'static str> {
    let places = first_places(alloc, units).ok()?;
    match placed_text(alloc, text, places.as_slice()) {
        Err(PlacedFault::Unfit(why)) => Some(why),
        Ok(_) | Err(PlacedFault::OutOfMemory) => None,
    }
}
