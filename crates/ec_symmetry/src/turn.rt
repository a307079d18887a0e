//! Plans that are sent earlier.

ghost use Rattle.std.specs.Prelude.{◌≡◌, ℕ, ◌<◌, length, All};
ghost use Rattle.ec_units.specs.Load.{load_of, loads_of};
ghost use Rattle.ec_symmetry.specs.Turned.{earlier, earlier_place as place_earlier, earlier_plan, first_phase as first_phase_of};

use ec_units::{Place, Unit};

/// The phase of what is sent some ticks earlier; phase, period and ticks all in ticks.
fn earlier_phase(phase: u16, period: u16, ticks: u16) -> u16
    requires { 0 < period }
    ensures { result ≡ earlier ticks period phase }
{
    let later = u32::from(phase) + u32::from(period - ticks % period);
    (later % u32::from(period)) as u16
}

/// The place of a unit that is sent some ticks earlier.
fn earlier_place(place: Place, unit: &Unit, ticks: u16) -> Place
    ensures { result ≡ place_earlier ticks (load_of unit.now) place }
{
    Place {
        phase: earlier_phase(place.phase, unit.period, ticks),
        slot: place.slot,
    }
}

/// Sends each unit some ticks earlier.
pub(crate) fn send_earlier(places: &mut [Place], units: &[Unit], ticks: u16)
    requires { length places.old ≡ length units.now }
    ensures { places.new ≡ earlier_plan ticks (loads_of units.now) places.old }
{
    for i in 0..places.len() {
        places[i] = earlier_place(places[i], &units[i], ticks);
    }
}

/// The phase of the first unit of the order, in ticks; 0 where the order has none.
pub(crate) fn first_phase(places: &[Place], order: &[u8]) -> u16
    requires { All (λ u. u < length places.now) order.now }
    ensures { result ≡ first_phase_of order.now places.now }
{
    match order.first() {
        Some(unit) => places[usize::from(*unit)].phase,
        None => 0,
    }
}
