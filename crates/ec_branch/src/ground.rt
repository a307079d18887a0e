//! The loads in which one explores.

ghost use Rattle.std.specs.Prelude.{◌≡◌, IfOk};
ghost use Rattle.ec_units.specs.Load.{loads_of};
ghost use Rattle.ec_bounds.specs.Left.{IsRestOf};

use ec_bounds::Rest;
use ec_loads::Loads;
use ec_units::Units;
use std::alloc::{AllocError, Global};

/// The loads of a search, with the places of the prefix that was explored last, and what is left of them. A worker explores all its
/// pieces in these, so a piece of few nodes costs no more than they do.
#[derive(Drop)]
pub struct Ground {
    pub(crate) loads: Loads,
    pub(crate) rest: Rest,
    pub ghost left: { IsRestOf rest loads },
}

impl Ground {
    /// The units, none with a place. `AllocError` where memory was refused.
    pub fn new(alloc: Global, units: &Units) -> Result<Ground, AllocError>
        ensures loads { IfOk result (λ ground. ground.loads.loads ≡ loads_of units.now.units) }
        ensures slots { IfOk result (λ ground. ground.loads.slots ≡ units.now.slots) }
    {
        Ok(Ground {
            loads: Loads::new(alloc, units)?,
            rest: Rest::all(units),
        })
    }
}
