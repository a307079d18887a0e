//! Plans of whole prefixes.

ghost use Rattle.std.specs.Prelude.{◌≡◌, IfOk, IsSomeAnd, map, Some, List};
ghost use Rattle.std.specs.Option.{ForSome};
ghost use Rattle.ec_units.specs.declared.slave.Place.{Place};

use ec_loads::{Loads, Places, Plan};
use std::alloc::{AllocError, Global};

/// The plan of the places that the units have; none where one has none.
pub(crate) fn plan_of(alloc: Global, loads: &Loads) -> Result<Option<Plan>, AllocError>
    ensures plan { IfOk result (λ r. ForSome r (λ plan. map Some plan.places ≡ loads.now.places)) }
    ensures none { (ps : List Place) → loads.now.places ≡ map Some ps → IfOk result (λ r. IsSomeAnd r (λ plan. plan.places ≡ ps)) }
{
    let from = loads.places();
    let mut places = Vec::new(alloc);
    for i in 0..from.len() {
        match from[i] {
            Some(place) => places.push(place)?,
            None => return Ok(None),
        }
    }
    Ok(Some(Plan {
        places: Places::new(places),
    }))
}

/// The plan of places that give each unit one.
pub(crate) fn whole(alloc: Global, loads: &Loads) -> Result<Plan, AllocError>
    requires { (plan : List Place) × (loads.now.places ≡ map Some plan) }
    ensures { IfOk result (λ plan. map Some plan.places ≡ loads.now.places) }
{
    match plan_of(alloc, loads)? {
        Some(plan) => Ok(plan),
        None => unreachable!(),
    }
}
