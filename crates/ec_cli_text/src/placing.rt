//! The plan that the places of the units make.

ghost use Rattle.std.specs.Prelude.{◌≡◌, ◌⊎◌, length, map, None, IfOk, IfErr};
ghost use Rattle.ec_units.specs.Load.{loads_of};
ghost use Rattle.ec_units.specs.Views.{unit_view, units_view};
ghost use Rattle.ec_loads.specs.Legal.{IsLegal};
ghost use Rattle.ec_cli_refusals.specs.Refusals.{out_of_memory};
ghost use Rattle.ec_cli_text.specs.Plans.{IsPlacedPlan, IsUnplaced, first_unplaced, places_of};

use ec_cli_refusals::Refusal;
use ec_loads::{Places, Plan, is_legal};
use ec_units::Units;
use std::alloc::Global;

/// The plan that the places of the units make, legal or not.
pub(crate) fn plan_of(alloc: Global, units: &Units) -> Result<Plan, Refusal>
    ensures ok { IfOk result (λ plan. (first_unplaced (map unit_view units.now.units) ≡ None) × (plan.places ≡ places_of (map unit_view units.now.units)) × (length plan.places ≡ length units.now.units)) }
    ensures err { IfErr result (λ r. (r ≡ out_of_memory) ⊎ IsUnplaced (units_view units.now) r) }
{
    let mut places = Vec::new(alloc);
    let all = units.units.as_slice();
    for (i, unit) in all.iter().enumerate() {
        match unit.place {
            Some(place) => places.push(place)?,
            None => return Err(Refusal::NoPlace(i)),
        }
    }
    Ok(Plan {
        places: Places::new(places),
    })
}

/// The plan of the places of the units, where it is legal.
///
/// # Errors
///
/// `NoPlace` of the first unit without a place, else `Illegal`; or that memory ran out.
pub fn placed_plan(alloc: Global, units: &Units) -> Result<Plan, Refusal>
    ensures ok { IfOk result (λ plan. IsPlacedPlan (units_view units.now) plan.places) }
    ensures legal { IfOk result (λ plan. IsLegal (loads_of units.now.units) units.now.slots plan.places) }
    ensures err { IfErr result (λ r. (r ≡ out_of_memory) ⊎ IsUnplaced (units_view units.now) r) }
{
    let plan = plan_of(alloc, units)?;
    match is_legal(units, &plan) {
        Ok(()) => Ok(plan),
        Err(illegal) => Err(Refusal::Illegal(illegal)),
    }
}
