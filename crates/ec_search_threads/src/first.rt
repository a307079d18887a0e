//! The plan that a search opens with.

ghost use Rattle.std.specs.Prelude.{◌≡◌, IfOk};
ghost use Rattle.std.specs.Option.{ForSome};
ghost use Rattle.ec_units.specs.Load.{loads_of};
ghost use Rattle.ec_loads.specs.Legal.{IsLegal};
ghost use Rattle.ec_search_threads.specs.IsOpening.{IsOpening};

use ec_branch::{first_plan, greedy};
use ec_loads::Plan;
use ec_symmetry::Rules;
use ec_units::Units;
use std::alloc::{AllocError, Global};

/// The plan that a search by these rules opens with, if it has one: by the strong rules the greedy plan, bettered; else the
/// greedy plan.
pub fn opening_plan(alloc: Global, units: &Units, rules: Rules) -> Result<Option<Plan>, AllocError>
    ensures legal { IfOk result (λ r. ForSome r (λ plan. IsLegal (loads_of units.now.units) units.now.slots plan.places)) }
    ensures opening { IfOk result (IsOpening rules (loads_of units.now.units) units.now.slots) }
{
    match rules {
        Rules::Strong => first_plan(alloc, units),
        Rules::Plain | Rules::Turned => greedy(alloc, units),
    }
}
