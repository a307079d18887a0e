//! What a plan answers: the best plan that was found, or that there is none.

ghost use Rattle.std.specs.Prelude.{◌≡◌, ◌++◌, length, string_bytes, IfOk, IfSome, OnOk};
ghost use Rattle.ec_cli_text.specs.Lines.{cut_text, level_lines, unit_line, unit_lines};
ghost use Rattle.ec_cli_text.specs.Outcomes.{HasPlaces, outcome_output, optimal_text as optimal_spec, unproved_text as unproved_spec};
ghost use Rattle.ec_cli_text.specs.Output.{shown};

use crate::answer::Answer;
use ec_cert::Best;
use ec_loads::Plan;
use ec_outcome::{Cut, Outcome};
use ec_units::{Place, Units};
use std::alloc::{AllocError, Global};
use std::fmt::Write;

/// Adds the line of a unit at its place.
fn push_unit(text: &mut String, name: &str, place: Place) -> Result<(), AllocError>
    ensures { OnOk result (string_bytes text.new ≡ string_bytes text.old ++ unit_line name.now place) }
{
    let phase = place.phase;
    let slot = place.slot;
    write!(text, "unit {name} phase {phase} slot {slot}\n")
}

/// Adds a line for each unit at its place in the plan.
fn push_units(text: &mut String, units: &Units, plan: &Plan) -> Result<(), AllocError>
    requires { length plan.now.places ≡ length units.now.units }
    ensures { OnOk result (string_bytes text.new ≡ string_bytes text.old ++ unit_lines units.now.units plan.now.places) }
{
    let all = units.units.as_slice();
    let places = plan.places.as_slice();
    for i in 0..all.len() {
        push_unit(text, all[i].name.as_str(), places[i])?;
    }
    Ok(())
}

/// The text of a plan whose busiest tick is least.
fn optimal_text(
    alloc: Global,
    units: &Units,
    plan: &Plan,
    busiest: u64,
) -> Result<String, AllocError>
    requires { length plan.now.places ≡ length units.now.units }
    ensures { IfOk result (λ text. string_bytes text ≡ optimal_spec units.now.units plan.now.places busiest) }
{
    let mut text = format!(in alloc; "optimal {busiest}\n")?;
    push_units(&mut text, units, plan)?;
    Ok(text)
}

/// Why a search ended without a proof, as it is printed.
fn cut_name(cut: Cut) -> &'static str
    ensures { result.now ≡ cut_text cut }
{
    match cut {
        Cut::Journal => "journal",
        Cut::Budget => "budget",
        Cut::Memory => "memory",
        Cut::Time => "time",
        Cut::Parts => "parts",
    }
}

/// Adds the line of a level, if there is one.
fn push_level(text: &mut String, level: Option<u64>) -> Result<(), AllocError>
    ensures { OnOk result (string_bytes text.new ≡ string_bytes text.old ++ level_lines level) }
{
    match level {
        Some(level) => write!(text, "at least {level}\n"),
        None => Ok(()),
    }
}

/// The text of the best plan that was found, if any, where none is proved best, and of the level, if it is known.
fn unproved_text(
    alloc: Global,
    units: &Units,
    best: &Option<Best>,
    cut: Cut,
    level: Option<u64>,
) -> Result<String, AllocError>
    requires { IfSome best.now (λ b. length b.plan.places ≡ length units.now.units) }
    ensures { IfOk result (λ text. string_bytes text ≡ unproved_spec units.now.units best.now cut level) }
{
    let cut = cut_name(cut);
    match best {
        Some(best) => {
            let busiest = best.busiest;
            let mut text = format!(in alloc; "unproved {busiest}\ncut {cut}\n")?;
            push_level(&mut text, level)?;
            push_units(&mut text, units, &best.plan)?;
            Ok(text)
        }
        None => {
            let mut text = format!(in alloc; "unproved none\ncut {cut}\n")?;
            push_level(&mut text, level)?;
            Ok(text)
        }
    }
}

/// The text of an outcome, with its status. `level` is what a search without a proof has proved, in wire bytes: every
/// legal plan has a tick that costs at least that; of an outcome with a proof nothing is told of it.
pub fn outcome_answer(
    alloc: Global,
    units: &Units,
    outcome: &Outcome,
    level: Option<u64>,
) -> Result<Answer, AllocError>
    requires { HasPlaces units.now.units outcome.now }
    ensures { IfOk result (λ answer. shown answer ≡ outcome_output units.now.units outcome.now level) }
{
    match outcome {
        Outcome::Optimal { plan, busiest, .. } => Ok(Answer {
            text: optimal_text(alloc, units, plan, *busiest)?,
            code: 0,
        }),
        Outcome::NoPlan { .. } => Ok(Answer {
            text: String::from_str(alloc, "no plan\n")?,
            code: 1,
        }),
        Outcome::Unproved { best, cut, .. } => Ok(Answer {
            text: unproved_text(alloc, units, best, *cut, level)?,
            code: 2,
        }),
    }
}
