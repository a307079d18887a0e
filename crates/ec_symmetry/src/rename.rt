//! Plans that the children reach: slots renamed by their first use, and time turned.

ghost use Rattle.std.specs.Prelude.{◌≡◌, ℕ, ◌<◌, length, All, IfOk};
ghost use Rattle.ec_units.specs.Load.{loads_of};
ghost use Rattle.ec_loads.specs.Legal.{IsLegal};
ghost use Rattle.ec_loads.specs.Line.{rules_if, line_by};
ghost use Rattle.ec_symmetry.specs.Reached.{IsInRange, IsReached};
ghost use Rattle.ec_symmetry.specs.Renamed.{swap_place as swapped_place, swap_slots as swapped_slots, renamed, IsRenamed};
ghost use Rattle.ec_symmetry.specs.Turned.{turned_plan, CostsAsPlan};

use crate::turn::{first_phase, send_earlier};
use ec_loads::{Places, Plan};
use ec_units::{Place, Unit, Units};
use std::alloc::{AllocError, Global};

/// The place where two slots are exchanged.
fn swap_place(place: Place, first: u8, second: u8) -> Place
    ensures { result ≡ swapped_place first second place }
{
    let slot = if place.slot == first {
        second
    } else if place.slot == second {
        first
    } else {
        place.slot
    };
    Place {
        phase: place.phase,
        slot,
    }
}

/// Exchanges two slots of all places.
fn swap_slots(places: &mut [Place], first: u8, second: u8)
    ensures { places.new ≡ swapped_slots first second places.old }
{
    for i in 0..places.len() {
        places[i] = swap_place(places[i], first, second);
    }
}

/// The slot of a place.
fn slot_of(place: Place) -> u8
    ensures { result ≡ place.slot }
{
    place.slot
}

/// Renames the slots by their first use in this order.
fn rename(places: &mut [Place], order: &[u8])
    requires { All (λ u. u < length places.old) order.now }
    ensures { places.new ≡ renamed 0 order.now places.old }
{
    let mut used = 0u16;
    for unit in order {
        let slot = slot_of(places[usize::from(*unit)]);
        if u16::from(slot) >= used {
            swap_slots(places, used as u8, slot);
            used += 1;
        }
    }
}

/// Sends the places earlier where time is turned, and renames their slots.
fn make_canonical(places: &mut [Place], units: &[Unit], order: &[u8], turned: bool)
    requires whole { length places.old ≡ length units.now }
    requires order { All (λ u. u < length places.old) order.now }
    ensures { places.new ≡ renamed 0 order.now (turned_plan turned (loads_of units.now) order.now places.old) }
{
    if turned {
        let ticks = first_phase(places, order);
        send_earlier(places, units, ticks);
    }
    rename(places, order);
}

/// A plan that the children reach, unit by unit in this order: the plan with its slots renamed by their first use in
/// the order, and where time is turned sent earlier by the phase of the order's first unit, which so gets phase 0. It
/// costs in every tick what the plan costs, or where time is turned in some later tick, and the busiest tick costs the
/// same. It is legal where the plan is. Units are numbered in file order.
pub fn canonical(
    alloc: Global,
    plan: &Plan,
    units: &Units,
    order: &[u8],
    turned: bool,
) -> Result<Plan, AllocError>
    requires range { IsInRange (loads_of units.now.units) units.now.slots plan.now.places }
    requires order { All (λ u. u < length units.now.units) order.now }
    ensures reached { IfOk result (λ r. IsReached (line_by (rules_if turned) (loads_of units.now.units) units.now.slots) order.now r.places) }
    ensures costs { IfOk result (λ r. CostsAsPlan turned (loads_of units.now.units) units.now.slots r.places plan.now.places) }
    ensures legal { IfOk result (λ r. IsLegal (loads_of units.now.units) units.now.slots plan.now.places → IsLegal (loads_of units.now.units) units.now.slots r.places) }
    ensures range { IfOk result (λ r. IsInRange (loads_of units.now.units) units.now.slots r.places) }
    ensures names { IfOk result (λ r. IsRenamed (turned_plan turned (loads_of units.now.units) order.now plan.now.places) r.places) }
{
    let mut places = plan.places.as_slice().to_vec(alloc)?;
    make_canonical(places.as_mut_slice(), units.units.as_slice(), order, turned);
    Ok(Plan {
        places: Places::new(places),
    })
}
