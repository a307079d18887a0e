//! What plans cost, and whether a unit text that stands has a better one.

ghost use Rattle.std.specs.Prelude.{◌≡◌, IfSome, None};
ghost use Rattle.std.specs.List.{list_any};
ghost use Rattle.std.specs.Option.{is_none, is_some};
ghost use Rattle.ec_units.specs.Views.{units_view};
ghost use Rattle.ec_loads.specs.Cost.{plan_items, IsBusiest};
ghost use Rattle.ec_loads.specs.Legal.{IsLegal};
ghost use Rattle.ec_units.specs.Load.{loads_of};
ghost use Rattle.ec_cli_text.specs.Plans.{IsPlacedPlan};

use crate::placed::MOST_TEXT;
use ec_cli_files::read_file;
use ec_cli_text::placed_plan;
use ec_loads::{Plan, busiest, is_legal};
use ec_unit_text::{UnitFault, read_units};
use ec_units::{Unit, Units, bytes_of};
use std::alloc::{AllocError, Global};
use std::io::ErrorKind;
use std::rt::Files;

/// What the busiest tick of a plan costs, in wire bytes, if the plan is legal.
pub fn legal_cost(units: &Units, plan: &Plan) -> Option<u64>
    ensures legal { IfSome result (λ b. IsLegal (loads_of units.now.units) units.now.slots plan.now.places) }
    ensures busiest { IfSome result (λ b. IsBusiest (plan_items (loads_of units.now.units) plan.now.places) units.now.slots b) }
    ensures none { result ≡ None → ¬ (IsLegal (loads_of units.now.units) units.now.slots plan.now.places) }
{
    match is_legal(units, plan) {
        Ok(()) => Some(busiest(units, plan).0),
        Err(_) => None,
    }
}

/// The plan of the units' own places, if each unit has one and it is legal, and what its busiest tick costs, in wire bytes.
pub fn placed_cost(alloc: Global, units: &Units) -> Option<(Plan, u64)>
    ensures placed { IfSome result (λ p. IsPlacedPlan (units_view units.now) p.0.places) }
    ensures legal { IfSome result (λ p. IsLegal (loads_of units.now.units) units.now.slots p.0.places) }
    ensures busiest { IfSome result (λ p. IsBusiest (plan_items (loads_of units.now.units) p.0.places) units.now.slots p.1) }
{
    let plan = placed_plan(alloc, units).ok()?;
    let (cost, _tick) = busiest(units, &plan);
    Some((plan, cost))
}

/// Whether two units have one name, one period and as many bytes.
fn is_alike(one: &Unit, other: &Unit) -> bool {
    one.name.as_str() == other.name.as_str()
        && one.period == other.period
        && bytes_of(one) == bytes_of(other)
}

/// Whether a plan of one unit text is one of the other, and costs as much.
pub(crate) fn are_alike(one: &Units, other: &Units) -> bool {
    let (these, those) = (one.units.as_slice(), other.units.as_slice());
    one.slots == other.slots
        && these.len() == those.len()
        && these
            .iter()
            .zip(those)
            .all(|(one, other)| is_alike(one, other))
}

/// Whether some unit has no place, as in a text that is written by hand.
pub fn lacks_place(units: &Units) -> bool
    ensures { result ≡ list_any (λ u. is_none u.place) units.now.units }
{
    units
        .units
        .as_slice()
        .iter()
        .any(|unit| unit.place.is_none())
}

/// Whether some unit has a place.
pub fn has_place(units: &Units) -> bool
    ensures { result ≡ list_any (λ u. is_some u.place) units.now.units }
{
    units
        .units
        .as_slice()
        .iter()
        .any(|unit| unit.place.is_some())
}

/// A unit text that stands at a path, and what it says.
#[derive(Drop)]
pub(crate) struct Standing {
    pub text: Vec<u8>,
    pub units: Units,
}

/// The unit text at a path, if one stands there that can be read. Only want of memory is an error.
pub(crate) fn standing_at<F: Files>(
    files: &F,
    alloc: Global,
    path: &str,
) -> Result<Option<Standing>, AllocError> {
    let text = match read_file(files, alloc, path, MOST_TEXT as u64) {
        Ok(Some(text)) if text.len() < MOST_TEXT => text,
        Err(error) if error.kind() == ErrorKind::OutOfMemory => return Err(AllocError),
        _ => return Ok(None),
    };
    match read_units(alloc, text.as_slice()) {
        Ok(units) => Ok(Some(Standing { text, units })),
        Err(UnitFault::OutOfMemory) => Err(AllocError),
        Err(_) => Ok(None),
    }
}
