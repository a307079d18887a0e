//! The best plan of a certificate.

ghost use Rattle.std.specs.Prelude.{◌≡◌, Some, IfOk, IfErr};
ghost use Rattle.ec_units.specs.Load.{loads_of};
ghost use Rattle.ec_cert.specs.IsBestPlan.{value_of as value_of_best, IsBestPlan};
ghost use Rattle.ec_checker.specs.Certified.{IsPlanFault};

use crate::fault::CheckFault;
use ec_cert::Best;
use ec_loads::{busiest, is_legal};
use ec_units::Units;

/// The cost of the busiest tick of a plan that is legal and costs what is stated.
fn cost_of(units: &Units, best: &Best) -> Result<u64, CheckFault>
    ensures ok { IfOk result (λ v. (v ≡ best.now.busiest) × IsBestPlan (loads_of units.now.units) units.now.slots (Some best.now)) }
    ensures fault { IfErr result (IsPlanFault (loads_of units.now.units) units.now.slots (Some best.now)) }
{
    if let Err(illegal) = is_legal(units, &best.plan) {
        return Err(CheckFault::Plan(illegal));
    }
    let (found, _) = busiest(units, &best.plan);
    if best.busiest != found {
        return Err(CheckFault::Value(best.busiest, found));
    }
    Ok(found)
}

/// The value of the best plan, if there is one, where it is legal and costs what is stated.
pub(crate) fn value_of(units: &Units, best: &Option<Best>) -> Result<Option<u64>, CheckFault>
    ensures ok { IfOk result (λ v. (v ≡ value_of_best best.now) × IsBestPlan (loads_of units.now.units) units.now.slots best.now) }
    ensures fault { IfErr result (IsPlanFault (loads_of units.now.units) units.now.slots best.now) }
{
    match best {
        None => Ok(None),
        Some(best) => Ok(Some(cost_of(units, best)?)),
    }
}
