//! Units with their places.

ghost use Rattle.std.specs.Prelude.{◌≡◌, ◌<◌, length, map, slice_set, IfOk, Some};
ghost use Rattle.ec_units.specs.Load.{loads_of};
ghost use Rattle.ec_loads.specs.Held.{own_places};

use crate::loads::Loads;
use crate::plan::Plan;
use ec_units::{Place, Units};
use std::alloc::{AllocError, Global};

impl Loads {
    /// Gives a unit this place, or takes away the one that it has.
    fn set(&mut self, unit: usize, place: Option<Place>)
        requires { unit < length self.old.places }
        ensures { self.new ≡ record self.old { places = slice_set self.old.places unit place } }
    {
        match place {
            Some(place) => self.place(unit, place),
            None => self.remove(unit),
        }
    }

    /// The units, each with the place that it has itself, if it has one.
    pub fn placed(alloc: Global, units: &Units) -> Result<Loads, AllocError>
        ensures { IfOk result (λ s. s ≡ record { loads = loads_of units.now.units; slots = units.now.slots; places = own_places units.now.units }) }
    {
        let mut loads = Loads::new(alloc, units)?;
        let all = units.units.as_slice();
        for i in 0..all.len() {
            loads.set(i, all[i].place);
        }
        Ok(loads)
    }

    /// The units at the places of a plan, which has one for each of them.
    pub fn at(alloc: Global, units: &Units, plan: &Plan) -> Result<Loads, AllocError>
        ensures { length plan.now.places ≡ length units.now.units →
            IfOk result (λ s. s ≡ record { loads = loads_of units.now.units; slots = units.now.slots; places = map Some plan.now.places }) }
    {
        let mut loads = Loads::new(alloc, units)?;
        let places = plan.places.as_slice();
        for i in 0..units.units.as_slice().len() {
            loads.set(i, places.get(i).copied());
        }
        Ok(loads)
    }
}
