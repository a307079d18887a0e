//! The plan of which a job tells: that of a certificate, or that of the places in the units.

ghost use Rattle.std.specs.Prelude.{◌≡◌, ◌⊎◌, IfOk, IfErr, IfSome, Some, option_map};
ghost use Rattle.ec_units.specs.Load.{loads_of};
ghost use Rattle.ec_units.specs.Views.{units_view};
ghost use Rattle.ec_loads.specs.Held.{no_places};
ghost use Rattle.ec_loads.specs.Legal.{IsLegal};
ghost use Rattle.ec_cli_command.specs.declared.job.Job.TheVariants.{Check};
ghost use Rattle.ec_cli_refusals.specs.Refusals.{IsMemory};
ghost use Rattle.ec_cli_text.specs.Plans.{IsCertless, IsCertPlan, IsFramedPlan, IsPlanless};
ghost use Rattle.ec_cli_answers.specs.Captures.{IsPlanWant};
ghost use Rattle.ec_cli_answers.specs.Told.{IsSaidOf};

use crate::right::{Right, right_cert};
use ec_cert::Cert;
use ec_checker::Verdict;
use ec_cli_inputs::Given;
use ec_cli_refusals::Refusal;
use ec_cli_text::placed_plan;
use ec_loads::{Loads, Plan};
use ec_units::Units;
use std::alloc::Global;

/// A plan of which is told.
#[derive(Drop)]
pub(crate) struct Chosen {
    pub(crate) plan: Plan,
    /// What the checker said of the certificate that it is of; none of another plan.
    pub(crate) verdict: Option<Verdict>,
}

/// The plan of a certificate's text where the checker says yes, or why there is none. The loads are those of the units, with
/// no place.
fn text_plan(
    alloc: Global,
    loads: &mut Loads,
    units: &Units,
    text: Vec<u8>,
) -> Result<Chosen, Refusal>
    requires { loads.old ≡ record { loads = loads_of units.now.units; slots = units.now.slots; places = no_places (loads_of units.now.units) } }
    ensures ok { IfOk result (λ c. IsCertPlan text.items (units_view units.now) c.plan.places) }
    ensures legal { IfOk result (λ c. IsLegal (loads_of units.now.units) units.now.slots c.plan.places) }
    ensures verdict { IfOk result (λ c. IsSaidOf (Some text.items) c.verdict) }
    ensures err { IfErr result (λ r. IsMemory Check r ⊎ IsCertless text.items (units_view units.now) r) }
{
    let Right { cert, verdict } = right_cert(alloc, loads, units, text)?;
    let Cert { best, .. } = cert;
    match best {
        Some(best) => Ok(Chosen {
            plan: best.plan,
            verdict: Some(verdict),
        }),
        None => Err(Refusal::CertHasNoPlan),
    }
}

/// The plan of the certificate where there is one, else that of the places in the units. The room of the certificate is that
/// of the units, with no place.
pub(crate) fn plan_for(
    alloc: Global,
    units: &Units,
    given: Option<Given>,
) -> Result<Chosen, Refusal>
    requires room { IfSome given (λ g. g.loads ≡ record { loads = loads_of units.now.units; slots = units.now.slots; places = no_places (loads_of units.now.units) }) }
    ensures ok { IfOk result (λ c. IsFramedPlan (option_map (λ g. g.text.items) given) (units_view units.now) c.plan.places) }
    ensures legal { IfOk result (λ c. IsLegal (loads_of units.now.units) units.now.slots c.plan.places) }
    ensures verdict { IfOk result (λ c. IsSaidOf (option_map (λ g. g.text.items) given) c.verdict) }
    ensures err { IfErr result (λ r. IsPlanWant (option_map (λ g. g.text.items) given) r ⊎ IsPlanless (option_map (λ g. g.text.items) given) (units_view units.now) r) }
{
    match given {
        Some(given) => {
            let Given { mut loads, text } = given;
            text_plan(alloc, &mut loads, units, text)
        }
        None => Ok(Chosen {
            plan: placed_plan(alloc, units)?,
            verdict: None,
        }),
    }
}
