//! What is told of the outcome of a search, and its certificate.

ghost use Rattle.std.specs.Prelude.{◌≡◌, Some, IfOk, IfErr, option_map};
ghost use Rattle.ec_units.specs.Load.{loads_of};
ghost use Rattle.ec_loads.specs.Held.{no_places};
ghost use Rattle.ec_workers.specs.Answers.{Asked, IsOutcome};
ghost use Rattle.ec_cert.specs.Shapes.{cert_view};
ghost use Rattle.ec_cert.specs.WellFormed.{IsWellFormed};
ghost use Rattle.ec_cert_text.specs.Text.{certificate_text};
ghost use Rattle.ec_checker.specs.Certified.{lines_of as lines_spec};
ghost use Rattle.ec_cli_text.specs.Outcomes.{HasPlaces, IsLevelOf};
ghost use Rattle.ec_cli_answers.specs.Planned.{outcome_cert, IsShownAt};
ghost use Rattle.ec_cli_answers.specs.Told.{ending_of, plan_in, HasText, IsOutcomeTold};
ghost use Rattle.ec_cli_refusals.specs.Refusals.{out_of_memory};

use crate::told::{File, Told};
use ec_cert::{Cert, UnitLines};
use ec_checker::level_in;
use ec_cli_refusals::Refusal;
use ec_cli_text::outcome_answer;
use ec_loads::Loads;
use ec_outcome::{Ending, Outcome};
use ec_units::Units;
use ec_workers::{partial, rules_by};
use std::alloc::Global;

/// The level of a search without a proof: every legal plan has a tick that costs at least that many wire bytes. Of one
/// with a proof none. The loads are those of the units, with no place. Takes no memory.
fn level_of(loads: &mut Loads, units: &Units, outcome: &Outcome) -> Option<u64>
    requires loads { loads.old ≡ record { loads = loads_of units.now.units; slots = units.now.slots; places = no_places (loads_of units.now.units) } }
    requires outcome { (asked : Asked) × IsOutcome units.now.units units.now.slots asked outcome.now }
    ensures { IsLevelOf units.now.units units.now.slots outcome.now result }
{
    match outcome {
        Outcome::Optimal { .. } => None,
        Outcome::NoPlan { .. } => None,
        Outcome::Unproved {
            best,
            order,
            tree,
            strong,
            ..
        } => {
            let rules = rules_by(*strong);
            Some(level_in(loads, units, rules, order.as_slice(), tree, best))
        }
    }
}

/// The certificate of an outcome: its own, or that of a search without a proof, with its level and what a certificate says
/// of the units. Takes no memory.
fn cert_of(units: &Units, lines: UnitLines, outcome: Outcome, level: Option<u64>) -> Cert
    requires lines { lines ≡ lines_spec units.now.units }
    requires outcome { (asked : Asked) × IsOutcome units.now.units units.now.slots asked outcome }
    requires level { IsLevelOf units.now.units units.now.slots outcome level }
    ensures text { outcome_cert units.now outcome level ≡ Some (certificate_text (cert_view result)) }
    ensures formed { IsWellFormed (cert_view result) }
    ensures shows { IsShownAt units.now outcome level }
    ensures plan { option_map (λ b. b.plan.places) result.best ≡ plan_in outcome }
{
    match outcome {
        Outcome::Optimal { cert, .. } => cert,
        Outcome::NoPlan { cert } => cert,
        Outcome::Unproved {
            best,
            order,
            tree,
            strong,
            ..
        } => match level {
            Some(level) => partial(units, lines, order, best, tree, strong, level),
            None => unreachable!(),
        },
    }
}

/// How a search ended without a proof, at this level.
fn ending(outcome: &Outcome, level: Option<u64>) -> Option<Ending>
    ensures { result ≡ ending_of outcome.now level }
{
    let (
        Outcome::Unproved {
            best,
            strong,
            cut,
            ..
        },
        Some(level),
    ) = (outcome, level)
    else {
        return None;
    };
    let best = match best {
        Some(best) => Some(best.busiest),
        None => None,
    };
    Some(Ending {
        best,
        cut: *cut,
        level,
        strong: *strong,
    })
}

/// What is told of the outcome of a search: its text with its status, of one without a proof with its level, and its
/// certificate. The loads are those of the units, with no place, and the lines are what a certificate says of them. Only the
/// text takes memory, and all of it is made here, so that memory is wanted no more once a byte is written.
pub(crate) fn tell_outcome(
    alloc: Global,
    units: &Units,
    loads: &mut Loads,
    lines: UnitLines,
    outcome: Outcome,
) -> Result<Told, Refusal>
    requires loads { loads.old ≡ record { loads = loads_of units.now.units; slots = units.now.slots; places = no_places (loads_of units.now.units) } }
    requires lines { lines ≡ lines_spec units.now.units }
    requires outcome { (asked : Asked) × IsOutcome units.now.units units.now.slots asked outcome }
    requires places { HasPlaces units.now.units outcome }
    ensures ok { IfOk result (IsOutcomeTold units.now outcome) }
    ensures text { IfOk result (λ t. HasText t.file) }
    ensures err { IfErr result (λ r. r ≡ out_of_memory) }
{
    let level = level_of(loads, units, &outcome);
    let answer = outcome_answer(alloc, units, &outcome, level)?;
    let ending = ending(&outcome, level);
    let cert = cert_of(units, lines, outcome, level);
    Ok(Told {
        answer,
        file: File::Cert(cert),
        plan: None,
        ending,
        verdict: None,
    })
}
