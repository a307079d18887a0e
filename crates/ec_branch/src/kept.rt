//! The plan that keeps the places of the units.

ghost use Rattle.std.specs.Prelude.{◌≡◌, ◌⊎◌, ◌≤◌, List, length, map, IfOk, IsSomeAnd, Some, None, slice_get, true};
ghost use Rattle.std.specs.Option.{ForSome};
ghost use Rattle.ec_units.specs.declared.slave.Place.{Place};
ghost use Rattle.ec_units.specs.Load.{loads_of};
ghost use Rattle.ec_loads.specs.Legal.{IsLegal};
ghost use Rattle.ec_loads.specs.Held.{own_places};
ghost use Rattle.ec_branch.specs.Kept.{Keeps};

use crate::greedy_plan::best_among;
use crate::order::search_order;
use crate::plan::plan_of;
use crate::strong::strong_order;
use ec_loads::{Loads, Plan, busiest, is_legal};
use ec_symmetry::choices;
use ec_units::{Place, Units};
use std::alloc::{AllocError, Global};

/// Whether there is such a unit, and it has no place yet.
fn is_unplaced(loads: &Loads, unit: usize) -> bool
    ensures { result ≡ true → slice_get loads.now.places unit ≡ Some None }
{
    matches!(loads.places().get(unit), Some(None))
}

/// The first place of least busiest tick for a unit without one, in whichever slot, of those that keep every payload small enough.
fn best_place(loads: &mut Loads, unit: usize) -> Option<Place>
    requires { slice_get loads.old.places unit ≡ Some None }
    ensures { loads.new ≡ loads.old }
{
    let slots = loads.slots();
    let load = loads.loads().get(unit)?;
    let places = choices(load.period, slots, slots, false);
    best_among(loads, unit, places)
}

/// Gives each unit of the order that has no place its best one, where one isn't too full.
fn place_others(loads: &mut Loads, order: &[u8])
    ensures kept { Keeps loads.old.places loads.new.places }
    ensures len { length loads.new.places ≡ length loads.old.places }
{
    for unit in order {
        let unit = usize::from(*unit);
        if is_unplaced(loads, unit) {
            if let Some(place) = best_place(loads, unit) {
                loads.place(unit, place);
            }
        }
    }
}

/// The plan of `kept_plan` where the other units get their places in this order.
fn kept_by(alloc: Global, units: &Units, order: &[u8]) -> Result<Option<Plan>, AllocError>
    ensures legal { IfOk result (λ r. ForSome r (λ plan. IsLegal (loads_of units.now.units) units.now.slots plan.places)) }
    ensures kept { IfOk result (λ r. ForSome r (λ plan. Keeps (own_places units.now.units) (map Some plan.places))) }
    ensures own { (ps : List Place) → own_places units.now.units ≡ map Some ps → IsLegal (loads_of units.now.units) units.now.slots ps → IfOk result (λ r. IsSomeAnd r (λ plan. plan.places ≡ ps)) }
{
    let mut loads = Loads::placed(alloc, units)?;
    place_others(&mut loads, order);
    let Some(plan) = plan_of(alloc, &loads)? else {
        return Ok(None);
    };
    match is_legal(units, &plan) {
        Ok(()) => Ok(Some(plan)),
        Err(_) => Ok(None),
    }
}

/// The legal plan that costs less, the first one where both cost as much; the other one where there is but one.
fn cheaper(units: &Units, one: Option<Plan>, other: Option<Plan>) -> Option<Plan>
    requires one { ForSome one (λ plan. IsLegal (loads_of units.now.units) units.now.slots plan.places) }
    requires other { ForSome other (λ plan. IsLegal (loads_of units.now.units) units.now.slots plan.places) }
    ensures either { (result ≡ one) ⊎ (result ≡ other) }
    ensures none { result ≡ None → (one ≡ None) × (other ≡ None) }
{
    match (&one, &other) {
        (Some(this), Some(that)) if busiest(units, that).0 < busiest(units, this).0 => other,
        (None, _) => other,
        _ => one,
    }
}

/// A plan in which each unit that has a place keeps it (own profile): the other units, one after another, have each the place, in whichever
/// slot, that keeps every payload at 1498 bytes or less and gives the least busiest tick, the first such place in a tie. Of two plans, in the
/// order of the search and in that of the strong rules, it is the one that costs less. None where the places that the units have, or those
/// beside them, are no legal plan.
pub fn kept_plan(alloc: Global, units: &Units) -> Result<Option<Plan>, AllocError>
    ensures legal { IfOk result (λ r. ForSome r (λ plan. IsLegal (loads_of units.now.units) units.now.slots plan.places)) }
    ensures kept { IfOk result (λ r. ForSome r (λ plan. Keeps (own_places units.now.units) (map Some plan.places))) }
    ensures own { (ps : List Place) → own_places units.now.units ≡ map Some ps → IsLegal (loads_of units.now.units) units.now.slots ps → IfOk result (λ r. IsSomeAnd r (λ plan. plan.places ≡ ps)) }
{
    let order = search_order(alloc, units)?;
    let one = kept_by(alloc, units, order.as_slice())?;
    let order = strong_order(alloc, units)?;
    let other = kept_by(alloc, units, order.as_slice())?;
    Ok(cheaper(units, one, other))
}
