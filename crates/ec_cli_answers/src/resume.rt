//! What comes of going on with the search of a certificate.

ghost use Rattle.std.specs.Prelude.{◌≡◌, ◌≤◌, None, IfOk, IfErr, OnOk};
ghost use Rattle.ec_units.specs.Load.{loads_of};
ghost use Rattle.ec_loads.specs.Held.{no_places};
ghost use Rattle.ec_cert.specs.Parts.{IsPart};
ghost use Rattle.ec_cert.specs.Shapes.{cert_view};
ghost use Rattle.ec_cert.specs.WellFormed.{IsWellFormed};
ghost use Rattle.ec_checker.specs.Certified.{IsCertified};
ghost use Rattle.ec_workers.specs.Answers.{Asked, IsOutcome};
ghost use Rattle.ec_cli_answers.specs.Planned.{GoesOnFrom, IsProofBy, IsStoppedFrom};

use crate::right::{Right, right_cert};
use ec_cert::{Cert, Part};
use ec_checker::{Verdict, law_faults_refute};
use ec_cli_refusals::Refusal;
use ec_loads::Loads;
use ec_outcome::Outcome;
use ec_tree::{law_levels_bound, law_trees_bound};
use ec_units::Units;
use ec_workers::{Gate, solve_from};
use std::alloc::{AllocError, Global};
use std::sync::Wait;
use std::thread::Threads;

/// The outcome of a certificate that is a proof: its plan, or that there is none.
fn proof_of(alloc: Global, units: &Units, cert: Cert) -> Result<Outcome, AllocError>
    requires formed { IsWellFormed (cert_view cert) }
    requires right { IsCertified units.now.units units.now.slots (cert_view cert) }
    requires proof { cert.level ≡ None }
    ensures outcome { IfOk result (λ o. (asked : Asked) → IsOutcome units.now.units units.now.slots asked o) }
    ensures own { IfOk result (IsProofBy (cert_view cert)) }
    ensures none { OnOk result (cert.level ≡ None) }
{
    law_faults_refute();
    law_trees_bound();
    law_levels_bound();
    let Some(best) = &cert.best else {
        return Ok(Outcome::NoPlan { cert });
    };
    let plan = best.plan.copied(alloc)?;
    let busiest = best.busiest;
    Ok(Outcome::Optimal {
        plan,
        busiest,
        cert,
    })
}

/// What comes of going on with a certificate's text for the units. The loads are those of the units, with no place, and are
/// so again afterwards. The text is dropped once it is read, before the search.
pub(crate) fn text_outcome<T: Threads + Wait + Sync, G: Gate + Sync>(
    rt: &T,
    alloc: Global,
    workers: usize,
    nodes: u32,
    part: Part,
    loads: &mut Loads,
    units: &Units,
    text: Vec<u8>,
    gate: &G,
) -> Result<Outcome, Refusal>
    requires workers { (1 ≤ workers) × (workers ≤ 16) }
    requires nodes { (1 ≤ nodes) × (nodes ≤ 10000000) }
    requires part { IsPart part }
    requires empty { loads.old ≡ record { loads = loads_of units.now.units; slots = units.now.slots; places = no_places (loads_of units.now.units) } }
    ensures same { loads.new ≡ loads.old }
    ensures ok { IfOk result (GoesOnFrom workers nodes part units.now text.items) }
    ensures err { IfErr result (IsStoppedFrom workers units.now text.items) }
{
    let Right { cert, verdict } = right_cert(alloc, loads, units, text)?;
    match verdict {
        Verdict::AtLeast(_) => Ok(solve_from(rt, alloc, units, cert, part, workers, nodes, gate)?),
        _ => Ok(proof_of(alloc, units, cert)?),
    }
}
