//! The unit text with the places of a plan.

ghost use Rattle.std.specs.Prelude.{◌≡◌, string_bytes, IfOk, Ok as OkOf};
ghost use Rattle.ec_units.specs.Views.{units_view};
ghost use Rattle.ec_unit_text.specs.Reading.{reading, IsValidText};
ghost use Rattle.ec_unit_rewrite.specs.Placing.{IsPlacedText};
ghost use Rattle.ec_unit_rewrite.specs.declared.placing.PlacingFault.TheVariants.{NotUnits, OutOfMemory};

use crate::compare::are_placed;
use crate::lines::placed_lines;
use ec_unit_text::{UnitFault, read_units};
use ec_units::{Place, Units};
use std::alloc::{AllocError, Global};

/// Why a unit text isn't written again with places.
#[derive(Clone, Copy, Debug, PartialEq, Eq)]
pub enum PlacingFault {
    /// Memory ran out.
    OutOfMemory,
    /// It is no unit text.
    NotUnits,
    /// Its units aren't tables that each begin with a line `[[unit]]`, with a key a line; or there are more or fewer
    /// places than units, or one is out of range.
    Form,
}

impl From<AllocError> for PlacingFault {
    ghost from_gives = { λ _ e. e ≡ OutOfMemory };

    fn from(_error: AllocError) -> PlacingFault {
        PlacingFault::OutOfMemory
    }
}

/// The units that a text says.
fn units_in(alloc: Global, text: &[u8]) -> Result<Units, PlacingFault>
    ensures ok { IfOk result (λ us. reading text.now ≡ OkOf (units_view us)) }
    ensures none { result ≡ Err NotUnits → ¬ IsValidText text.now }
{
    match read_units(alloc, text) {
        Ok(units) => Ok(units),
        Err(UnitFault::OutOfMemory) => Err(PlacingFault::OutOfMemory),
        Err(_) => Err(PlacingFault::NotUnits),
    }
}

/// The unit text again, where each unit has its place: a line for each line, in their order, so that comments stay. The
/// number behind `phase` and `slot` is another one; a unit that has none of them gets both, on lines behind its
/// `period`. What was made is read again: it says the same units at these places.
pub fn place_text(alloc: Global, text: &[u8], places: &[Place]) -> Result<String, PlacingFault>
    ensures ok { IfOk result (λ placed. IsPlacedText text.now places.now (string_bytes placed)) }
    ensures none { result ≡ Err NotUnits → ¬ IsValidText text.now }
{
    let units = units_in(alloc, text)?;
    let Ok(lines) = std::str::from_utf8(text) else {
        return Err(PlacingFault::Form);
    };
    let placed = placed_lines(alloc, lines, units.units.as_slice(), places)?;
    match units_in(alloc, placed.as_bytes()) {
        Ok(again) if are_placed(&units, &again, places) => Ok(placed),
        Err(PlacingFault::OutOfMemory) => Err(PlacingFault::OutOfMemory),
        _ => Err(PlacingFault::Form),
    }
}
